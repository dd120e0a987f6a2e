// The type of a node over a membership table: as sets, for as many entries as there are.
ghost use Rattle.std.specs.Prelude.{◌≡◌, ◌+◌, ◌*◌, ◌≤◌, ◌<◌, length};
ghost use Rattle.node_expression.specs.NodeExpression.{expression_at};
ghost use Rattle.schema.specs.Schema.{WritesFrom};
ghost use Rattle.typing_answer.specs.Typing.{table_answer, table_out};
ghost use Rattle.type_sets.specs.Sets.{width_of};
ghost use Rattle.type_record.specs.Record.{output_size};

use crate::output::list_output;
use accepted_file::AcceptedFile;
use set_filling::fill_sets;
use type_record::write_record;

// A node over a membership table, with a slice for the types of the nodes up to it, and one for the output's
// attributes. Both are free afterwards.
fn type_within(
    file: &AcceptedFile<'_>,
    node: u8,
    special: &[u16],
    entries: &[u32],
    list: &mut [u32],
    sets: &mut [u64],
    out: &mut [u8],
) -> Option<usize>
    requires node_lt_n { (node < file.now.header.nodes) × (output_size ≤ length out.old) }
    requires writes_from { WritesFrom special.now entries.now (length entries.now) }
    requires count_in_bounds { (length entries.now ≤ length list.old) × (node * width_of (length entries.now) + width_of (length entries.now) ≤ length sets.old) }
    ensures value { result ≡ table_answer (expression_at file.now.bytes.now node) special.now entries.now }
    ensures out_after { out.new ≡ table_out (expression_at file.now.bytes.now node) special.now entries.now out.old }
{
    let width = 2 + (entries.len() + 63) / 64;
    fill_sets(file, node, special, entries, width, sets);
    let at = node as usize * width;
    if sets[at] != 0 {
        return None;
    }
    let map = sets[at + 1] as u16;
    let listed = list_output(file.bytes, node, entries, sets, at + 2, list);
    Some(write_record(out, map, &list[..listed]))
}

// The same with N words of its own for the types, which begin as FIRST: no word is read before it is written.
fn type_sized<const N: usize, const FIRST: u64>(
    file: &AcceptedFile<'_>,
    node: u8,
    special: &[u16],
    entries: &[u32],
    list: &mut [u32],
    out: &mut [u8],
) -> Option<usize>
    requires node_lt_n { (node < file.now.header.nodes) × (output_size ≤ length out.old) }
    requires writes_from { WritesFrom special.now entries.now (length entries.now) }
    requires count_in_bounds { (length entries.now ≤ length list.old) × (node * width_of (length entries.now) + width_of (length entries.now) ≤ N) }
    requires size { N ≤ 384 }
    ensures value { result ≡ table_answer (expression_at file.now.bytes.now node) special.now entries.now }
    ensures out_after { out.new ≡ table_out (expression_at file.now.bytes.now node) special.now entries.now out.old }
{
    let mut sets = [FIRST; N];
    type_within(file, node, special, entries, list, &mut sets, out)
}

// A node over a membership table, with a slice for the output's attributes: few words for few nodes and entries. The
// largest slice begins as ones, since so many zeros would be a call of the C library.
pub fn type_table(
    file: &AcceptedFile<'_>,
    node: u8,
    special: &[u16],
    entries: &[u32],
    list: &mut [u32],
    out: &mut [u8],
) -> Option<usize>
    requires node_lt_n { (node < file.now.header.nodes) × (output_size ≤ length out.old) }
    requires writes_from { WritesFrom special.now entries.now (length entries.now) × (length entries.now ≤ length list.old) }
    ensures value { result ≡ table_answer (expression_at file.now.bytes.now node) special.now entries.now }
    ensures out_after { out.new ≡ table_out (expression_at file.now.bytes.now node) special.now entries.now out.old }
{
    match (node as usize + 1) * (2 + (entries.len() + 63) / 64) {
        0..=24 => type_sized::<24, 0>(file, node, special, entries, list, out),
        25..=192 => type_sized::<192, 0>(file, node, special, entries, list, out),
        _ => type_sized::<384, 1>(file, node, special, entries, list, out),
    }
}
