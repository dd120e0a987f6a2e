// Whether a membership table fits a stored formula, and the output that it then has.
#![tactic(auto)]

ghost use Rattle.std.specs.Prelude.{◌≡◌, ◌+◌, ◌*◌, ◌≤◌, ◌<◌, length, get_or, take};
ghost use Rattle.bits.specs.AllBelow.{all_below};
ghost use Rattle.states.specs.Formula.{type_variable};
ghost use Rattle.column.specs.Column.{allowed_in, output_in};
ghost use Rattle.stored_formula.specs.ColumnPlace.{column_at};
ghost use Rattle.membership.specs.Entries.{subset_of};
ghost use Rattle.fitting.specs.StoredFit.{specials_allowed, stored_map, stored_list};

use admission::FORMULA_SIZE;
use column::{allowed_in, output_digit};
use membership::list_where;
use special_maps::pack;

// Whether s is allowed in column c of the formula.
fn is_allowed(formula: &[u8; FORMULA_SIZE], c: u8, s: u8) -> bool
    requires { c < 16 }
    ensures { result ≡ allowed_in (column_at formula.now 0 c) s }
{
    allowed_in(&formula[c as usize * 64..], s as usize)
}

// Whether the entry's subset is a type variable (FORMAT 3.9).
fn is_variable(formula: &[u8; FORMULA_SIZE], e: u32) -> bool
    ensures { result ≡ type_variable (allowed_in (column_at formula.now 0 0)) (subset_of e) }
{
    let s = (e % 256) as u8;
    if s == 0 {
        return false;
    }
    is_allowed(formula, 0, s)
}

// Whether the subset of each entry is a type variable of the formula.
pub fn entries_allowed(formula: &[u8; FORMULA_SIZE], entries: &[u32]) -> bool
    ensures { result ≡ all_below (length entries.now) (λ i. type_variable (allowed_in (column_at formula.now 0 0)) (subset_of (get_or entries.now i 0))) }
{
    entries.iter().all(|e| is_variable(formula, *e))
}

// Whether the subset of each special attribute is allowed in its column.
pub fn specials_allowed(formula: &[u8; FORMULA_SIZE], subsets: &[u8]) -> bool
    requires { length subsets.now ≡ 16 }
    ensures { result ≡ specials_allowed formula.now 0 subsets.now }
{
    for i in 0u8..15 {
        if !is_allowed(formula, i + 1, subsets[i as usize + 1]) {
            return false;
        }
    }
    true
}

// Whether the output bit of s stands in column c of the formula.
fn output_at(formula: &[u8; FORMULA_SIZE], c: u8, s: u8) -> bool
    requires { c < 16 }
    ensures { result ≡ output_in (column_at formula.now 0 c) s }
{
    output_digit(&formula[c as usize * 64..], s as usize) == 1
}

// The map of the special attributes whose output bit stands at their subset.
pub fn output_map(formula: &[u8; FORMULA_SIZE], subsets: &[u8]) -> u16
    requires { length subsets.now ≡ 16 }
    ensures { result ≡ stored_map formula.now 0 subsets.now }
{
    pack(16, |i| output_at(formula, i as u8, subsets[i]))
}

// Lists the attributes of the entries whose output bit stands at their subset, and gives their number. What stands in
// the list after them is free.
pub fn list_output(formula: &[u8; FORMULA_SIZE], entries: &[u32], list: &mut [u32]) -> usize
    requires { length entries.now ≤ length list.old }
    ensures value { result ≡ length (stored_list formula.now 0 entries.now) }
    ensures list_after { take result list.new ≡ stored_list formula.now 0 entries.now }
{
    list_where(entries, list, |_, e| output_at(formula, 0, (e % 256) as u8))
}
