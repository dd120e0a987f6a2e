// The rows of the table of costs, one from the other.
ghost use Rattle.std.specs.Prelude.{◌≡◌, true, ◌+◌, ◌-◌, ◌*◌, ◌^◌, ◌≤◌, length};
ghost use Rattle.column.specs.Column.{allowed_in};
ghost use Rattle.set_cover.specs.Shortcuts.{covering};
ghost use Rattle.verdict_answer.specs.First.{allowed_at};
ghost use Rattle.verdict_answer.specs.Formed.{Formed};
ghost use Rattle.verdict_answer.specs.Witness.{cost_in};
ghost use Rattle.cover_table.specs.Table.{IsRow, TableHolds, row_blocks, row_width};

use crate::alike::same_bytes;
use admission::FORMULA_SIZE;
use copying::copy_bytes;
use cover_rows::cost_row;
use stored_columns::column_of;

// What each set of relations costs by variables alone: nothing where it is empty, and then by up to eight of them.
fn variables_row(column: [u8; 64], blocks: u8, count: u16) -> [u8; 256]
    requires { (blocks ≤ 16) × (count ≤ blocks * 16) }
    ensures { IsRow count (covering count (allowed_in column) 8) result }
{
    let mut row = [200u8; 256];
    row[0] = 0;
    for j in 0u8..8 {
        let mut next = [200u8; 256];
        cost_row(&mut next, &column, &row, blocks, count);
        if same_bytes(&row, &next, blocks as usize * 16) {
            return row;
        }
        row = next;
    }
    row
}

// The table of a formula, for so many subsets and blocks of sixteen of them. A column that allows what column 0 does
// leaves the row as it is.
fn fill_table(formula: &[u8; FORMULA_SIZE], blocks: u8, count: u16, table: &mut [u8])
    requires table_len { 16 * (blocks * 16) ≤ length table.old }
    requires blocks_bound { (blocks ≤ 16) × (count ≤ blocks * 16) × (allowed_at formula.now 0 0 0 ≡ true) }
    ensures { TableHolds count (allowed_at formula.now 0) (blocks * 16) 16 table.new }
{
    let width = blocks as usize * 16;
    let first = column_of(formula, 0);
    let mut row = variables_row(first, blocks, count);
    copy_bytes(table, 0, &row, width);
    for k in 0u8..15 {
        let column = column_of(formula, 15 - k);
        let at = (k + 1) as usize * width;
        if same_bytes(&first, &column, 32) {
            copy_bytes(table, at, &row, width);
        } else {
            let mut next = [200u8; 256];
            cost_row(&mut next, &column, &row, blocks, count);
            copy_bytes(table, at, &next, width);
            row = next;
        }
    }
}

// How many subsets m relations have.
pub fn subset_count(m: u8) -> u16
    requires { m ≤ 8 }
    ensures { result ≡ 2 ^ m }
{
    1 << m
}

// The subset of all m relations.
pub fn all_relations(m: u8) -> u8
    requires { m ≤ 8 }
    ensures { result ≡ 2 ^ m - 1 }
{
    (subset_count(m) - 1) as u8
}

// The blocks of a row for m relations.
fn row_blocks(m: u8) -> u8
    requires { m ≤ 8 }
    ensures { result ≡ row_blocks m }
{
    ((subset_count(m) + 15) / 16) as u8
}

// The bytes of a row for m relations.
pub fn row_width(m: u8) -> usize
    requires { m ≤ 8 }
    ensures { result ≡ row_width m }
{
    row_blocks(m) as usize * 16
}

// The table for m relations. Gives what it costs to fill them all.
pub fn fill_costs(formula: &[u8; FORMULA_SIZE], m: u8, table: &mut [u8]) -> u8
    requires table_len { 16 * row_width m ≤ length table.old }
    requires m_bound { (m ≤ 8) × Formed m (allowed_at formula.now 0) }
    ensures value { result ≡ cost_in m (allowed_at formula.now 0) }
    ensures table_holds { TableHolds (2 ^ m) (allowed_at formula.now 0) (row_width m) 16 table.new }
{
    let count = subset_count(m);
    let blocks = row_blocks(m);
    fill_table(formula, blocks, count, table);
    table[15 * (blocks as usize * 16) + count as usize - 1]
}
