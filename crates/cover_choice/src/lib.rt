// The choice that Verdict takes, off the table of costs (FORMAT 7.26): the subsets of the special attributes, and then
// the variables with their ordinary attributes.
#![tactic(auto)]

ghost use Rattle.std.specs.Prelude.{◌≡◌, ◌-◌, ◌≤◌, ◌<◌, take, replicate};
ghost use Rattle.membership.specs.Holders.{ItemsFit};
ghost use Rattle.set_cover.specs.Least.{infinity};
ghost use Rattle.set_cover.specs.Cost.{cost};
ghost use Rattle.set_cover.specs.Choice.{best_variables};
ghost use Rattle.verdict_answer.specs.First.{allowed_at};
ghost use Rattle.verdict_answer.specs.Witness.{numbered};
ghost use Rattle.cover_table.specs.Table.{TableHolds, LentRow};
ghost use Rattle.cover_choice.specs.Specials.{SpecialsChosen};

use admission::FORMULA_SIZE;
use cover_rows::pick;
use stored_columns::column_of;

// Writes the subset of each special attribute, the lowest that costs no more than it must, and gives the relations that
// need an attribute yet. A row of the table has so many bytes.
pub fn choose_specials(
    formula: &[u8; FORMULA_SIZE],
    count: u16,
    table: &[u8],
    width: usize,
    subsets: &mut [u8],
) -> u8
    requires subsets_none { subsets.old ≡ replicate 16 0 }
    requires le_count { (1 ≤ count) × (count ≤ 256) × TableHolds count (allowed_at formula.now 0) width 16 table.now }
    requires count_bound { cost count (allowed_at formula.now 0) 15 (count - 1) < infinity }
    ensures { SpecialsChosen count (allowed_at formula.now 0) subsets.new result }
{
    let mut need = (count - 1) as u8;
    for i in 1u8..16 {
        let column = column_of(formula, i);
        let next = (15 - i) as usize * width;
        let target = table[next + width + need as usize];
        let s = pick(&column, &table[next..], 0, count, need, target) as u8;
        subsets[i as usize] = s;
        need = need & !s;
    }
    need
}

// Writes an entry for each variable, from attribute 16 on: while a relation needs an attribute, the lowest that costs
// no more than it must. Gives the number of the entries. `next` is the table, which begins with the row of the variables.
// The loop is a `while`, as it ends when no relation needs an attribute any more.
pub fn choose_variables(
    formula: &[u8; FORMULA_SIZE],
    count: u16,
    next: &[u8],
    all: u8,
    items: &mut [u32; 8],
) -> usize
    requires all_lt_count { (all < count) × (count ≤ 256) × LentRow count (cost count (allowed_at formula.now 0) 0) next.now }
    requires all_bound { cost count (allowed_at formula.now 0) 0 all < infinity }
    ensures upper_bound { (result ≤ 8) × ItemsFit items.new result }
    ensures after { take result items.new ≡ numbered 16 (best_variables count (allowed_at formula.now 0) all all) }
{
    let column = column_of(formula, 0);
    let mut need = all;
    let mut n = 0usize;
    while need != 0 {
        let target = next[need as usize];
        let v = pick(&column, next, 1, count, need, target) as u8;
        items[n] = (16 + n) as u32 * 256 + v as u32;
        need = need & !v;
        n += 1;
    }
    n
}
