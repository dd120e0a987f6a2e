// The formula of a node by its operator, column by column (FORMAT 3.11). The loop is generic over what the operator
// makes of its operands' columns, so that each operator has one of its own, in which what depends on the node alone is
// outside.
#![tactic(auto)]

ghost use Rattle.std.specs.Prelude.{◌≡◌, ℕ, ◌+◌, ◌*◌, ◌≤◌, ◌<◌, List, eqb, length};
ghost use Rattle.attribute_set.specs.AttrSet.{has_attribute};
ghost use Rattle.node.specs.declared.nodes.SetOp.TheVariants.{Selection, Projection};
ghost use Rattle.column.specs.declared.steps.Combination.TheVariants.{Agreeing, Merging, Disjoint};
ghost use Rattle.column.specs.Steps.{set_step, renaming_step, projecting_out_step};
ghost use Rattle.column.specs.Column.{combined_column, unary_column};
ghost use Rattle.stored_formula.specs.ColumnPlace.{column_at};
ghost use Rattle.stored_formula.specs.WrittenColumns.{Columns};
ghost use Rattle.admission.specs.Admission.{formula_size};

use admission::FORMULA_SIZE;
use attribute_set::AttrSet;
use column::{
    Combination, combined_column, projecting_out_step, renaming_column, set_step, unary_column,
};
use node::SetOp;
use stored_columns::{read_column, write_column};

// Fills the formula of node k, of one operand: column c is what is made of the operand's.
fn fill_unary<F: Fn(u8, [u8; 64]) -> [u8; 64]>(l: u8, k: u8, work: &mut [u8], make: F)
    requires formula_size_in_bounds { k * formula_size + formula_size ≤ length work.old }
    requires l_lt_k { l < k }
    requires callable { F.IsAlwaysCallable make }
    ensures { (column : ℕ → List ℕ) → ((c : ℕ) (y : _) → c < 16 → F.post make c (column_at work.old l c) y → y ≡ column c) → Columns column (k * formula_size) 16 work.old work.new }
{
    let start = k as usize * FORMULA_SIZE;
    for c in 0..16 {
        let column = make(c, read_column(work, l, c));
        write_column(&mut work[start..], c, column);
    }
}

// Fills the formula of node k, of two operands: column c is what is made of theirs.
fn fill_combined<F: Fn([u8; 64], [u8; 64]) -> [u8; 64]>(
    l: u8,
    r: u8,
    k: u8,
    work: &mut [u8],
    make: F,
)
    requires formula_size_in_bounds { k * formula_size + formula_size ≤ length work.old }
    requires l_lt_k { (l < k) × (r < k) }
    requires callable { F.IsAlwaysCallable make }
    ensures { (column : ℕ → List ℕ) → ((c : ℕ) (y : _) → c < 16 → F.post make (column_at work.old l c) (column_at work.old r c) y → y ≡ column c) → Columns column (k * formula_size) 16 work.old work.new }
{
    let start = k as usize * FORMULA_SIZE;
    for c in 0..16 {
        let column = make(read_column(work, l, c), read_column(work, r, c));
        write_column(&mut work[start..], c, column);
    }
}

// A union or a difference.
pub fn fill_union(l: u8, r: u8, k: u8, work: &mut [u8])
    requires formula_size_in_bounds { k * formula_size + formula_size ≤ length work.old }
    requires l_lt_k { (l < k) × (r < k) }
    ensures { Columns (λ c. combined_column Agreeing (column_at work.old l c) (column_at work.old r c)) (k * formula_size) 16 work.old work.new }
{
    let make = |left, right|
        ensures { result ≡ combined_column Agreeing left right }
    { combined_column(Combination::Agreeing, left, right) };
    fill_combined(l, r, k, work, make);
}

// A natural join.
pub fn fill_join(l: u8, r: u8, k: u8, work: &mut [u8])
    requires formula_size_in_bounds { k * formula_size + formula_size ≤ length work.old }
    requires l_lt_k { (l < k) × (r < k) }
    ensures { Columns (λ c. combined_column Merging (column_at work.old l c) (column_at work.old r c)) (k * formula_size) 16 work.old work.new }
{
    let make = |left, right|
        ensures { result ≡ combined_column Merging left right }
    { combined_column(Combination::Merging, left, right) };
    fill_combined(l, r, k, work, make);
}

// A product.
pub fn fill_product(l: u8, r: u8, k: u8, work: &mut [u8])
    requires formula_size_in_bounds { k * formula_size + formula_size ≤ length work.old }
    requires l_lt_k { (l < k) × (r < k) }
    ensures { Columns (λ c. combined_column Disjoint (column_at work.old l c) (column_at work.old r c)) (k * formula_size) 16 work.old work.new }
{
    let make = |left, right|
        ensures { result ≡ combined_column Disjoint left right }
    { combined_column(Combination::Disjoint, left, right) };
    fill_combined(l, r, k, work, make);
}

// A selection.
pub fn fill_selection(l: u8, s: AttrSet, k: u8, work: &mut [u8])
    requires formula_size_in_bounds { k * formula_size + formula_size ≤ length work.old }
    requires l_lt_k { l < k }
    ensures { Columns (λ c. unary_column (set_step Selection (has_attribute s c)) (column_at work.old l c)) (k * formula_size) 16 work.old work.new }
{
    let make = |c: u8, column|
        ensures { result ≡ unary_column (set_step Selection (has_attribute s c)) column }
    { unary_column(set_step(SetOp::Selection, s.has(c)), column) };
    fill_unary(l, k, work, make);
}

// A projection.
pub fn fill_projection(l: u8, s: AttrSet, k: u8, work: &mut [u8])
    requires formula_size_in_bounds { k * formula_size + formula_size ≤ length work.old }
    requires l_lt_k { l < k }
    ensures { Columns (λ c. unary_column (set_step Projection (has_attribute s c)) (column_at work.old l c)) (k * formula_size) 16 work.old work.new }
{
    let make = |c: u8, column|
        ensures { result ≡ unary_column (set_step Projection (has_attribute s c)) column }
    { unary_column(set_step(SetOp::Projection, s.has(c)), column) };
    fill_unary(l, k, work, make);
}

// A renaming.
pub fn fill_renaming(l: u8, old: u8, new: u8, k: u8, work: &mut [u8])
    requires formula_size_in_bounds { k * formula_size + formula_size ≤ length work.old }
    requires l_lt_k { l < k }
    ensures { Columns (λ c. unary_column (renaming_step (eqb c old) (eqb c new)) (column_at work.old l c)) (k * formula_size) 16 work.old work.new }
{
    let make = |c: u8, column|
        ensures { result ≡ unary_column (renaming_step (eqb c old) (eqb c new)) column }
    { renaming_column(c == old, c == new, column) };
    fill_unary(l, k, work, make);
}

// A projecting out.
pub fn fill_projecting_out(l: u8, old: u8, k: u8, work: &mut [u8])
    requires formula_size_in_bounds { k * formula_size + formula_size ≤ length work.old }
    requires l_lt_k { l < k }
    ensures { Columns (λ c. unary_column (projecting_out_step (eqb c old)) (column_at work.old l c)) (k * formula_size) 16 work.old work.new }
{
    let make = |c: u8, column|
        ensures { result ≡ unary_column (projecting_out_step (eqb c old)) column }
    { unary_column(projecting_out_step(c == old), column) };
    fill_unary(l, k, work, make);
}
