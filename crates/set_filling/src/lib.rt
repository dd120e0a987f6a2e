// The types of a file's nodes over a membership table, as sets in words of 64 bits, node by node.
#![tactic(auto)]

ghost use Rattle.std.specs.Prelude.{◌≡◌, ◌+◌, ◌*◌, ◌≤◌, ◌<◌, length};
ghost use Rattle.expression_file.specs.ReadFile.{size_at};
ghost use Rattle.expression_file.specs.Walk.{Here};
ghost use Rattle.node.specs.Legal.{LegalNode};
ghost use Rattle.entry_columns.specs.EntryColumns.{Groups};
ghost use Rattle.type_sets.specs.Sets.{width_of, NodeSets};
ghost use Rattle.type_sets.specs.FilledSets.{Filled};

use accepted_file::AcceptedFile;
use entry_columns::gather_subsets;
use node::Node;
use node_reader::decode;
use node_sets::{combine, lay_projecting_out, lay_relation, lay_renaming, lay_with_set};

// The words of node k, whose operands' words are there.
fn lay_node(
    node: Node,
    m: u8,
    k: u8,
    special: &[u16],
    entries: &[u32],
    groups: &[u64],
    width: usize,
    sets: &mut [u64],
)
    requires m_bound { (m ≤ 8) × LegalNode m k node }
    requires special_len { length special.now ≡ 8 }
    requires groups { Groups entries.now (length entries.now) groups.now }
    requires width_value { (width ≡ width_of (length entries.now)) × (k * width + width ≤ length sets.old) }
    ensures { NodeSets special.now entries.now (length entries.now) width k sets.old sets.new node }
{
    let at = k as usize * width;
    match node {
        Node::Relation(r) => {
            let map = special[r as usize] as u64;
            lay_relation(sets, map, entries, groups, r, at, width);
        }
        Node::Binary(op, l, r) => {
            combine(sets, op, l as usize * width, r as usize * width, at, width);
        }
        Node::WithSet(op, l, s) => {
            let bits = s.to_bits() as u64;
            lay_with_set(sets, op, l as usize * width, bits, at, width);
        }
        Node::Renaming(l, old, new) => {
            lay_renaming(sets, l as usize * width, old, new, at, width);
        }
        Node::ProjectingOut(l, old) => {
            lay_projecting_out(sets, l as usize * width, old, at, width);
        }
    }
}

// Reads node k at byte `at` of the file, lays its words down, and gives the byte after it.
fn fill_node(
    file: &AcceptedFile<'_>,
    k: u8,
    at: usize,
    special: &[u16],
    entries: &[u32],
    groups: &[u64],
    width: usize,
    sets: &mut [u64],
) -> usize
    requires here { Here file.now.bytes.now file.now.header.relations k at }
    requires special_len { length special.now ≡ 8 }
    requires groups { Groups entries.now (length entries.now) groups.now }
    requires width_value { (width ≡ width_of (length entries.now)) × (k * width + width ≤ length sets.old) }
    requires filled { Filled file.now.bytes.now special.now entries.now width k sets.old }
    ensures value { result ≡ at + size_at file.now.bytes.now k }
    ensures filled_2 { Filled file.now.bytes.now special.now entries.now width (k + 1) sets.new }
{
    let decoding = decode(&file.bytes[at..]);
    let node = decoding.node;
    lay_node(
        node,
        file.header.relations,
        k,
        special,
        entries,
        groups,
        width,
        sets,
    );
    at + decoding.size
}

// The types of the nodes up to `node`, over a membership table.
pub fn fill_sets(
    file: &AcceptedFile<'_>,
    node: u8,
    special: &[u16],
    entries: &[u32],
    width: usize,
    sets: &mut [u64],
)
    requires node_lt_n { (node < file.now.header.nodes) × (length special.now ≡ 8) }
    requires count_in_bounds { length entries.now ≤ 255 }
    requires width_value { (width ≡ width_of (length entries.now)) × ((node + 1) * width ≤ length sets.old) }
    ensures { Filled file.now.bytes.now special.now entries.now width (node + 1) sets.new }
{
    let mut groups = [0u64; 32];
    gather_subsets(entries, &mut groups);
    let mut at = 2;
    for k in 0..=node {
        at = fill_node(file, k, at, special, entries, &groups, width, sets);
    }
}
