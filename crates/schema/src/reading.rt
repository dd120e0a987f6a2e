// Reading a schema (FORMAT 5.1, 8.4).
ghost use Rattle.std.specs.Prelude.{◌≡◌, ◌≤◌, length, IfOk};
ghost use Rattle.membership.specs.Entries.{RoomFor, SpareFor};
ghost use Rattle.schema.specs.Schema.{reading_of, schema_reading, EntriesStand};

use entering::enter;
use refusal::Refusal;
use type_record::{read_record, record_size};

// A schema's membership table but for its entries: for each relation the map of its special attributes, and the number
// of the entries.
#[derive(Clone, Copy)]
pub struct SchemaTable {
    pub special: [u16; 8],
    pub count: usize,
}

// The schema of m relations in these bytes (FORMAT 8.4), or the first refusal of 14 to 18. Its entries stand at the front
// of `items`; what stands after them, and in the second slice, is free.
pub fn read_schema(
    bytes: &[u8],
    m: u8,
    items: &mut [u32],
    spare: &mut [u32],
) -> Result<SchemaTable, Refusal>
    requires m_bound { m ≤ 8 }
    requires room_for { RoomFor (length bytes.now) items.old × SpareFor (length bytes.now) spare.old }
    ensures value { result ≡ reading_of (schema_reading m bytes.now) }
    ensures entries_stand { EntriesStand (schema_reading m bytes.now).judgement (schema_reading m bytes.now).entries items.new }
    ensures count_in_bounds { IfOk result (λ table. table.count ≤ length spare.new) }
{
    let mut special = [0u16; 8];
    let mut count = 0;
    let mut at = 0;
    for r in 0..m {
        let head = read_record(&bytes[at..])?;
        special[r as usize] = head.special;
        count = enter(&bytes[at + 2..], head.count, 1 << r, items, count, spare);
        at += record_size(head.count);
    }
    if at < bytes.len() {
        return Err(Refusal::InputFollowed);
    }
    if 255 < count {
        return Err(Refusal::TooManyAttributes);
    }
    Ok(SchemaTable { special, count })
}
