// A row at what remains of each need without the first four relations of a subset. Dropping is by relations that are
// constants: the compiler makes moves of eight, four, two and one bytes of it. In this order none reads bytes that were
// written in two steps.
ghost use Rattle.std.specs.Prelude.{◌*◌, ◌≤◌, ◌<◌};
ghost use Rattle.bits.specs.Written.{Written};
ghost use Rattle.cover_rows.specs.Blocks.{WrittenAt};
ghost use Rattle.cover_rows.specs.LowEntries.{low_entry, dropped_entry, held_part};

use copying::copy_bytes;

// Block h: each entry becomes the one at what remains of its need without the relation, one of the first four.
fn drop_in_block(table: &mut [u8; 256], h: u8, relation: u8)
    requires { (h < 16) × (relation < 16) }
    ensures { WrittenAt (dropped_entry table.old relation (h * 16)) (h * 16) 16 table.old table.new }
{
    let start = h as usize * 16;
    let kept = (15 - relation) as usize;
    for n in 0..16 {
        table[start + n] = table[start + (n & kept)];
    }
}

// The same for so many blocks.
fn drop_relation(table: &mut [u8; 256], relation: u8, blocks: u8)
    requires { (blocks ≤ 16) × (relation < 16) }
    ensures { Written (low_entry table.old relation) (blocks * 16) table.old table.new }
{
    for h in 0u8..blocks {
        drop_in_block(table, h, relation);
    }
}

// The same where the subset has the relation.
fn drop_held(table: &mut [u8; 256], low: u8, relation: u8, blocks: u8)
    requires { (blocks ≤ 16) × (relation < 16) }
    ensures { Written (low_entry table.old (held_part low relation)) (blocks * 16) table.old table.new }
{
    if low & relation != 0 {
        drop_relation(table, relation, blocks);
    }
}

// Writes the row at what remains of each need without the first four relations of a subset, in so many blocks.
pub fn low_entries(table: &mut [u8; 256], row: &[u8; 256], low: u8, blocks: u8)
    requires { (low < 16) × (blocks ≤ 16) }
    ensures { Written (low_entry row.now low) (blocks * 16) table.old table.new }
{
    copy_bytes(table, 0, row, blocks as usize * 16);
    drop_held(table, low, 8, blocks);
    drop_held(table, low, 4, blocks);
    drop_held(table, low, 2, blocks);
    drop_held(table, low, 1, blocks);
}
