// Writing a schema from the membership table (FORMAT 5.1).
ghost use Rattle.std.specs.Prelude.{◌≡◌, ◌≤◌, length};
ghost use Rattle.bits.specs.Tab.{over};
ghost use Rattle.schema.specs.Schema.{schema_bytes, records_of, WritesFrom, schema_size};

use membership::held_by;
use type_record::write_record;

// Writes the records of m relations to the front of the slice, and gives their length. The second slice is for the
// attributes of one relation, and free afterwards.
pub fn write_schema(
    out: &mut [u8],
    m: u8,
    special: &[u16],
    entries: &[u32],
    list: &mut [u32],
) -> usize
    requires m_bound { m ≤ 8 }
    requires writes_from { WritesFrom special.now entries.now (length entries.now) }
    requires schema_size_in_bounds { (schema_size ≤ length out.old) × (length entries.now ≤ length list.old) }
    ensures value { result ≡ length (schema_bytes (records_of m special.now entries.now)) }
    ensures out_after { out.new ≡ over (schema_bytes (records_of m special.now entries.now)) out.old }
{
    let mut at = 0;
    for r in 0u8..m {
        let n = held_by(entries, r, list);
        at += write_record(&mut out[at..], special[r as usize], &list[..n]);
    }
    at
}
