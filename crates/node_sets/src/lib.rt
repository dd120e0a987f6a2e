// The sets of a node from those of its operands, a word at a time.
#![tactic(auto)]

ghost use Rattle.std.specs.Prelude.{◌≡◌, ◌+◌, ◌≤◌, ◌<◌, ◌^◌, length, set, get_or};
ghost use Rattle.std.specs.Int.Bits.{bit_or};
ghost use Rattle.entry_columns.specs.EntryColumns.{Groups};
ghost use Rattle.type_sets.specs.Sets.{Combined, words_at, Laid, width_of, relation_word, SetLaid, RenamingLaid, OutLaid};

use entry_columns::held_word;
use node::{BinaryOp, SetOp};
use type_sets::{breaking, coming_out, lacking, without};

// The words of a node of two operands, from their places to the node's.
pub fn combine(sets: &mut [u64], op: BinaryOp, left: usize, right: usize, at: usize, width: usize)
    requires width_bound { (left + width ≤ at) × (right + width ≤ at) }
    requires le_width { (1 ≤ width) × (at + width ≤ length sets.old) }
    ensures { Combined op left right at width sets.old sets.new }
{
    let mut broken = sets[left] | sets[right];
    for v in 1..width {
        let x = sets[left + v];
        let y = sets[right + v];
        broken = broken | breaking(op, x, y);
        sets[at + v] = coming_out(op, x, y);
    }
    sets[at] = broken;
}

// The first two words of a node.
fn lay_front(sets: &mut [u64], at: usize, broken: u64, given: u64)
    requires { at + 2 ≤ length sets.old }
    ensures { sets.new ≡ set (set sets.old at broken) (at + 1) given }
{
    sets[at] = broken;
    sets[at + 1] = given;
}

// The words of a node with its operand's entries. This loop, the next one and lay_relation's stay three: one over a
// closure would have to lend it the words that it writes, and say in its contract what it may find there.
fn keep_entries(sets: &mut [u64], from: usize, at: usize, width: usize, broken: u64, given: u64)
    requires width_bound { (from + width ≤ at) × (2 ≤ width) }
    requires width_in_bounds { at + width ≤ length sets.old }
    ensures { Laid (bit_or (get_or sets.old from 0) broken) given (words_at sets.old from) at width sets.old sets.new }
{
    let whole = sets[from] | broken;
    for v in 2..width {
        let word = sets[from + v];
        sets[at + v] = word;
    }
    lay_front(sets, at, whole, given);
}

// The words of a node without entries. At most 64 entries, in one word, are cleared without a loop, which the compiler
// makes a call of.
fn drop_entries(sets: &mut [u64], from: usize, at: usize, width: usize, broken: u64, given: u64)
    requires width_bound { (from + width ≤ at) × (2 ≤ width) }
    requires width_in_bounds { at + width ≤ length sets.old }
    ensures { Laid (bit_or (get_or sets.old from 0) broken) given (λ v. 0) at width sets.old sets.new }
{
    let whole = sets[from] | broken;
    if width == 3 {
        sets[at + 2] = 0;
        lay_front(sets, at, whole, given);
        return;
    }
    for v in 2..width {
        sets[at + v] = 0;
    }
    lay_front(sets, at, whole, given);
}

// The words of a relation with these special attributes, from the groups of the entries.
pub fn lay_relation(
    sets: &mut [u64],
    special: u64,
    entries: &[u32],
    groups: &[u64],
    r: u8,
    at: usize,
    width: usize,
)
    requires r_bound { r < 8 }
    requires groups { Groups entries.now (length entries.now) groups.now }
    requires width_value { (width ≡ width_of (length entries.now)) × (at + width ≤ length sets.old) }
    ensures { Laid 0 special (relation_word entries.now (length entries.now) r) at width sets.old sets.new }
{
    let made = &groups[..(entries.len() + 7) / 8];
    for v in 2..width {
        sets[at + v] = held_word(made, r, (v - 2) * 8);
    }
    lay_front(sets, at, 0, special);
}

// The words of a selection or a projection by the set with these bits.
pub fn lay_with_set(sets: &mut [u64], op: SetOp, from: usize, s: u64, at: usize, width: usize)
    requires width_bound { (from + width ≤ at) × (2 ≤ width) }
    requires width_in_bounds { at + width ≤ length sets.old }
    ensures { SetLaid op from s at width sets.old sets.new }
{
    let x = sets[from + 1];
    let broken = lacking(x, s);
    match op {
        SetOp::Selection => {
            keep_entries(sets, from, at, width, broken, x);
        }
        SetOp::Projection => {
            drop_entries(sets, from, at, width, broken, s);
        }
    }
}

// The words of a renaming.
pub fn lay_renaming(sets: &mut [u64], from: usize, old: u8, new: u8, at: usize, width: usize)
    requires bound { (old < 16) × (new < 16) }
    requires width_bound { (from + width ≤ at) × (2 ≤ width) }
    requires width_in_bounds { at + width ≤ length sets.old }
    ensures { RenamingLaid from (2 ^ old) (2 ^ new) at width sets.old sets.new }
{
    let x = sets[from + 1];
    let o = 1u64 << old;
    let n = 1u64 << new;
    keep_entries(
        sets,
        from,
        at,
        width,
        lacking(x, o) | (x & n),
        without(x, o) | n,
    );
}

// The words of a projecting out.
pub fn lay_projecting_out(sets: &mut [u64], from: usize, old: u8, at: usize, width: usize)
    requires bound { old < 16 }
    requires width_bound { (from + width ≤ at) × (2 ≤ width) }
    requires width_in_bounds { at + width ≤ length sets.old }
    ensures { OutLaid from (2 ^ old) at width sets.old sets.new }
{
    let x = sets[from + 1];
    let o = 1u64 << old;
    keep_entries(sets, from, at, width, lacking(x, o), without(x, o));
}
