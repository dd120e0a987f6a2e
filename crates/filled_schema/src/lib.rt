// Whether a table leaves a relation without attributes, and schemas that leave none so (FORMAT 8.4).
#![tactic(auto)]

ghost use Rattle.std.specs.Prelude.{◌≡◌, not, ◌||◌, ◌≤◌, ◌<◌, eqb, length, take, IfOk};
ghost use Rattle.bits.specs.Bit.{bit};
ghost use Rattle.membership.specs.Entries.{RoomFor, SpareFor};
ghost use Rattle.schema.specs.Schema.{reading_of, EntriesStand};
ghost use Rattle.filled_schema.specs.FilledSchema.{SomeHeld, table_filled, filled_reading};

use refusal::Refusal;
use schema::{SchemaTable, read_schema};

// The relations that have one of the entries, as a subset.
fn holders(entries: &[u32]) -> u8
    ensures { SomeHeld result entries.now }
{
    let mut s = 0u8;
    for e in entries {
        s |= (*e % 256) as u8;
    }
    s
}

// Whether relation r has a special attribute, by its map, or an entry, by the relations that have one.
fn has_attribute(map: u16, held: u8, r: u8) -> bool
    requires { r < 8 }
    ensures { result ≡ not (eqb map 0) || bit held r }
{
    map != 0 || (held >> r) % 2 == 1
}

// Whether each of m relations has an attribute in the table of these maps and entries.
pub fn is_filled(m: u8, special: &[u16], entries: &[u32]) -> bool
    requires { (m ≤ 8) × (length special.now ≡ 8) }
    ensures { result ≡ table_filled m special.now entries.now }
{
    let held = holders(entries);
    for r in 0u8..m {
        if !has_attribute(special[r as usize], held, r) {
            return false;
        }
    }
    true
}

// The schema of m relations in these bytes (FORMAT 8.4), or the first refusal of 14 to 18, and 25. Its entries stand at
// the front of `items`; what stands after them, and in the second slice, is free.
pub fn read_filled_schema(
    bytes: &[u8],
    m: u8,
    items: &mut [u32],
    spare: &mut [u32],
) -> Result<SchemaTable, Refusal>
    requires m_bound { m ≤ 8 }
    requires room_for { RoomFor (length bytes.now) items.old × SpareFor (length bytes.now) spare.old }
    ensures value { result ≡ reading_of (filled_reading m bytes.now) }
    ensures entries_stand { EntriesStand (filled_reading m bytes.now).judgement (filled_reading m bytes.now).entries items.new }
    ensures count_in_bounds { IfOk result (λ table. table.count ≤ length spare.new) }
{
    // By cases and not by `?`, so that a wrong refusal can be tried in its place.
    let schema = match read_schema(bytes, m, items, spare) {
        Ok(schema) => schema,
        Err(refusal) => return Err(refusal),
    };
    if !is_filled(m, &schema.special, &items[..schema.count]) {
        return Err(Refusal::EmptyRecord);
    }
    Ok(schema)
}
