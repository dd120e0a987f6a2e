// A type record (FORMAT 4.1, 8.4).
ghost use Rattle.std.specs.Prelude.{◌≡◌, ◌≤◌};
ghost use Rattle.type_record.specs.Record.{read_record, record_size};

use crate::lists::read_list;
use bits::word_at;
use refusal::Refusal;

// The front of a record: the special attributes, bit 0 clear, and the number of ordinary ones.
#[derive(Clone, Copy)]
pub struct RecordHead {
    pub special: u16,
    pub count: usize,
}

// The record at the front of the bytes, or the first refusal of 14 to 16 (FORMAT 8.4).
pub fn read_record(bytes: &[u8]) -> Result<RecordHead, Refusal>
    ensures { result ≡ read_record bytes.now }
{
    if bytes.len() < 2 {
        return Err(Refusal::InputTruncated);
    }
    let map = word_at(bytes, 0);
    if map % 2 == 0 {
        return Ok(RecordHead {
            special: map,
            count: 0,
        });
    }
    let count = read_list(&bytes[2..])?;
    Ok(RecordHead {
        special: map - 1,
        count,
    })
}

// The bytes of a record with so many ordinary attributes (FORMAT 4.5).
pub fn record_size(count: usize) -> usize
    requires { count ≤ 255 }
    ensures { result ≡ record_size count }
{
    if count == 0 { 2 } else { count * 2 + 3 }
}
