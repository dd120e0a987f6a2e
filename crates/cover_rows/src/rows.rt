// A row of costs, sixteen needs at a time: the loop over sixteen has no branch, so that the compiler makes one step of
// it.
ghost use Rattle.std.specs.Prelude.{◌≡◌, false, ℕ, ◌+◌, ◌*◌, ◌≤◌, ◌<◌, min, get_or, replicate};
ghost use Rattle.bits.specs.Written.{Written};
ghost use Rattle.set_cover.specs.Least.{infinity};
ghost use Rattle.cover_rows.specs.Rows.{Costs, cost_row};
ghost use Rattle.cover_rows.specs.Blocks.{WrittenAt, lowered_entry, lowered_row};
ghost use Rattle.cover_rows.specs.Tried.{Reached, Before, NoneAllowed};

use crate::low::low_entries;
use column::allowed_in;

// How many numbers are the first four relations of one of `count` subsets.
fn low_parts(count: u16) -> u8
    ensures { result ≡ min 16 count }
{
    count.min(16) as u8
}

// Whether the column allows one of the subsets whose first four relations are `low`.
fn allows_low(column: &[u8; 64], low: u8, count: u16) -> bool
    requires { (low < 16) × (count ≤ 256) }
    ensures { result ≡ false → NoneAllowed column.now low count count }
{
    for s in (low as u16..count).step_by(16) {
        if allowed_in(column, s as usize) {
            return true;
        }
    }
    false
}

// Sixteen entries are lowered to those of the table and so many members.
fn lower_block(row: &mut [u8; 256], to: usize, table: &[u8; 256], from: usize, members: u8)
    requires { (to ≤ 240) × (from ≤ 240) × (members ≤ 8) × ((i : ℕ) → i < 16 → get_or table.now (from + i) 0 ≤ infinity) }
    ensures { WrittenAt (lowered_entry row.old table.now to from members) to 16 row.old row.new }
{
    for n in 0..16 {
        row[to + n] = row[to + n].min(table[from + n] + members);
    }
}

// The row after one subset: the table has what remains without its first four relations, `high` are the others.
fn lower_row(row: &mut [u8; 256], table: &[u8; 256], high: u8, members: u8, blocks: u8)
    requires { (blocks ≤ 16) × (high < 16) × (members ≤ 8) × ((x : ℕ) → x < blocks * 16 → get_or table.now x 0 ≤ infinity) }
    ensures { Written (lowered_row row.old table.now high members) (blocks * 16) row.old row.new }
{
    let kept = (15 - high) as usize * 16;
    for h in 0u8..blocks {
        let to = h as usize * 16;
        lower_block(row, to, table, to & kept, members);
    }
}

// The row after all subsets of a column whose first four relations are `low`. The table is for what remains without
// these, and free afterwards.
fn try_low(
    row: &mut [u8; 256],
    table: &mut [u8; 256],
    column: &[u8; 64],
    next: &[u8; 256],
    low: u8,
    blocks: u8,
    count: u16,
)
    requires low_bound { (low < 16) × (blocks ≤ 16) × (count ≤ 256) × Costs next.now }
    requires reached { Reached column.now next.now (blocks * 16) count (Before low) row.old }
    ensures { Reached column.now next.now (blocks * 16) count (Before (low + 1)) row.new }
{
    low_entries(table, next, low, blocks);
    for s in (low as u16..count).step_by(16) {
        if allowed_in(column, s as usize) {
            let members = u8::count_ones(s as u8) as u8;
            lower_row(row, table, (s / 16) as u8, members, blocks);
        }
    }
}

// Writes what each need below sixteen times `blocks` costs by one of `count` subsets of this column and then as `next`
// has it. The row begins with infinity everywhere.
pub fn cost_row(row: &mut [u8; 256], column: &[u8; 64], next: &[u8; 256], blocks: u8, count: u16)
    requires { (blocks ≤ 16) × (count ≤ 256) × Costs next.now × (row.old ≡ replicate 256 infinity) }
    ensures { row.new ≡ cost_row column.now next.now (blocks * 16) count }
{
    let mut table = [0u8; 256];
    let lows = low_parts(count);
    for low in 0u8..lows {
        if allows_low(column, low, count) {
            try_low(row, &mut table, column, next, low, blocks, count);
        }
    }
}
