// The output of a node whose type is there.
ghost use Rattle.std.specs.Prelude.{◌≡◌, ◌+◌, ◌/◌, ◌≤◌, ◌<◌, length, take};
ghost use Rattle.node_expression.specs.NodeExpression.{expression_at};
ghost use Rattle.table_types.specs.Output.{output_list};
ghost use Rattle.typing_answer.specs.TypeWords.{OutputBits};

use membership::list_where;

// Lists the attributes of the entries whose bit stands in the words from a place on, and gives their number. What
// stands in the list after them is free. File and node say whose output it is.
pub fn list_output(
    file: &[u8],
    node: u8,
    entries: &[u32],
    sets: &[u64],
    at: usize,
    list: &mut [u32],
) -> usize
    requires count_in_bounds { length entries.now ≤ length list.old }
    requires output_bits { OutputBits (expression_at file.now node) entries.now (length entries.now) sets.now at }
    ensures value { result ≡ length (output_list (expression_at file.now node) entries.now) }
    ensures list_after { take result list.new ≡ output_list (expression_at file.now node) entries.now }
{
    list_where(
        entries,
        list,
        |i, _|
            requires { at + i / 64 < length sets.now }
        { (sets[at + i / 64] >> (i % 64)) % 2 == 1 },
    )
}
