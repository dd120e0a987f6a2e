// Writing a type record (FORMAT 4.1).
ghost use Rattle.std.specs.Prelude.{◌≡◌, ◌%◌, ◌≤◌, length};
ghost use Rattle.bits.specs.Tab.{over};
ghost use Rattle.type_record.specs.Record.{record_size, record_bytes, output_size};
ghost use Rattle.type_record.specs.WritingLaws.{Ordinaries};

use crate::records::record_size;

// Writes the record of these special and listed attributes to the front of the slice, and gives its length.
pub fn write_record(out: &mut [u8], special: u16, listed: &[u32]) -> usize
    requires special_value { special % 2 ≡ 0 }
    requires listed_len_bound { (length listed.now ≤ 255) × Ordinaries listed.now }
    requires output_size_in_bounds { output_size ≤ length out.old }
    ensures value { result ≡ record_size (length listed.now) }
    ensures out_after { out.new ≡ over (record_bytes special listed.now) out.old }
{
    let count = listed.len();
    let low = (special % 256) as u8;
    out[1] = (special / 256) as u8;
    if count == 0 {
        out[0] = low;
        return 2;
    }
    out[0] = low + 1;
    out[2] = count as u8;
    for i in 0..count {
        out[i * 2 + 3] = (listed[i] % 256) as u8;
        out[i * 2 + 4] = (listed[i] / 256) as u8;
    }
    record_size(count)
}
