// Filling the work space with the formulas of all nodes, node by node.
#![tactic(auto)]

ghost use Rattle.std.specs.Prelude.{◌≡◌, ◌+◌, ◌*◌, ◌≤◌, ◌<◌, ◌^◌, length};
ghost use Rattle.bits.specs.Tab.{over};
ghost use Rattle.attribute_set.specs.AttrSet.{has_attribute};
ghost use Rattle.node.specs.Legal.{LegalNode};
ghost use Rattle.expression_file.specs.ReadFile.{size_at};
ghost use Rattle.column.specs.Steps.{combination_of, set_step};
ghost use Rattle.column.specs.Column.{combined_column, unary_column};
ghost use Rattle.stored_formula.specs.ColumnPlace.{column_at};
ghost use Rattle.stored_formula.specs.NodeColumn.{node_columns};
ghost use Rattle.stored_formula.specs.WrittenColumns.{Columns};
ghost use Rattle.stored_formula.specs.FormulaBytes.{formulas_of};
ghost use Rattle.expression_file.specs.Walk.{Here};
ghost use Rattle.stored_formula.specs.FilledNodes.{FilledTo};
ghost use Rattle.admission.specs.Admission.{formula_size};

use accepted_file::AcceptedFile;
use attribute_set::AttrSet;
use column::relation_column;
use node::{BinaryOp, Node, SetOp};
use node_columns::{
    fill_join, fill_product, fill_projecting_out, fill_projection, fill_renaming, fill_selection,
    fill_union,
};
use node_reader::decode;
use stored_columns::fill_relation;

// The formula of node k, an operator of two operands.
fn fill_binary(op: BinaryOp, l: u8, r: u8, k: u8, work: &mut [u8])
    requires formula_size_in_bounds { k * formula_size + formula_size ≤ length work.old }
    requires l_lt_k { (l < k) × (r < k) }
    ensures { Columns (λ c. combined_column (combination_of op) (column_at work.old l c) (column_at work.old r c)) (k * formula_size) 16 work.old work.new }
{
    match op {
        BinaryOp::Union => {
            fill_union(l, r, k, work);
        }
        BinaryOp::Difference => {
            fill_union(l, r, k, work);
        }
        BinaryOp::Join => {
            fill_join(l, r, k, work);
        }
        BinaryOp::Product => {
            fill_product(l, r, k, work);
        }
    }
}

// The formula of node k, an operator of one operand and an attribute set.
fn fill_with_set(op: SetOp, l: u8, s: AttrSet, k: u8, work: &mut [u8])
    requires formula_size_in_bounds { k * formula_size + formula_size ≤ length work.old }
    requires l_lt_k { l < k }
    ensures { Columns (λ c. unary_column (set_step op (has_attribute s c)) (column_at work.old l c)) (k * formula_size) 16 work.old work.new }
{
    match op {
        SetOp::Selection => {
            fill_selection(l, s, k, work);
        }
        SetOp::Projection => {
            fill_projection(l, s, k, work);
        }
    }
}

// The formula of node k, whose operands' formulas stand in the work space.
fn fill_formula(node: Node, m: u8, k: u8, work: &mut [u8])
    requires m_bound { (m ≤ 8) × LegalNode m k node }
    requires formula_size_in_bounds { k * formula_size + formula_size ≤ length work.old }
    ensures { Columns (node_columns (2 ^ m) node work.old) (k * formula_size) 16 work.old work.new }
{
    match node {
        Node::Relation(r) => {
            fill_relation(relation_column(1 << m, r), k, work);
        }
        Node::Binary(op, l, r) => {
            fill_binary(op, l, r, k, work);
        }
        Node::WithSet(op, l, s) => {
            fill_with_set(op, l, s, k, work);
        }
        Node::Renaming(l, old, new) => {
            fill_renaming(l, old, new, k, work);
        }
        Node::ProjectingOut(l, old) => {
            fill_projecting_out(l, old, k, work);
        }
    }
}

// Reads node k at byte `at` of the file, fills its formula, and gives the byte after it.
fn fill_node(file: &[u8], m: u8, k: u8, at: usize, work: &mut [u8]) -> usize
    requires here { Here file.now m k at }
    requires formula_size_in_bounds { k * formula_size + formula_size ≤ length work.old }
    requires filled_to { FilledTo file.now m (k * formula_size) work.old work.old }
    ensures value { result ≡ at + size_at file.now k }
    ensures filled_to_2 { FilledTo file.now m (k * formula_size + formula_size) work.old work.new }
{
    let decoding = decode(&file[at..]);
    let node = decoding.node;
    fill_formula(node, m, k, work);
    at + decoding.size
}

// The formulas of all nodes of an accepted file (FORMAT 7.2), for operations that have read it. The number of relations
// is read before the loop: behind the reference the compiler would take it for changed by each write, and work out what
// depends on it alone once for each node.
pub fn fill(file: &AcceptedFile<'_>, work: &mut [u8])
    requires formula_size_in_bounds { file.now.header.nodes * formula_size ≤ length work.old }
    ensures { work.new ≡ over (formulas_of file.now.bytes.now file.now.header.relations file.now.header.nodes) work.old }
{
    let bytes = file.bytes;
    let m = file.header.relations;
    let mut at = 2;
    for k in 0..file.header.nodes {
        at = fill_node(bytes, m, k, at, work);
    }
}
