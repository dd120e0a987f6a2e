// A list of ordinary attributes (FORMAT 4.3, 8.4).
ghost use Rattle.std.specs.Prelude.{◌≡◌, min};
ghost use Rattle.type_record.specs.Lists.{read_list};

use refusal::Refusal;

// The smaller of two numbers.
fn lesser(a: usize, b: usize) -> usize
    ensures { result ≡ min a b }
{
    if a < b { a } else { b }
}

// The number of attributes of the list at the front of the bytes, which begin with its count byte, or the first refusal
// of 14 to 16. The loop judges every attribute that is
// complete in the bytes, without a way out, so that the compiler can take several at a time. An attribute that does not
// rise is refused before a later one that is cut off.
pub fn read_list(bytes: &[u8]) -> Result<usize, Refusal>
    ensures { result ≡ read_list bytes.now }
{
    if bytes.len() < 1 {
        return Err(Refusal::InputTruncated);
    }
    let count = bytes[0] as usize;
    if count == 0 {
        return Err(Refusal::CountZero);
    }
    let whole = lesser(count, (bytes.len() - 1) / 2);
    let mut rises = true;
    let mut previous = 15u16;
    for i in 0..whole {
        let a = bits::word_at(bytes, i * 2 + 1);
        rises = rises & (previous < a);
        previous = a;
    }
    if !rises {
        return Err(Refusal::ListedAttribute);
    }
    if whole < count {
        return Err(Refusal::InputTruncated);
    }
    Ok(count)
}
