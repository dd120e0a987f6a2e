// Vocabulary of bytes: the bits of a number, ranges, numbers of two bytes, and the part of a list from a place on.
#![tactic(auto)]

ghost use Rattle.std.specs.Prelude.{◌≡◌, ◌+◌, ◌≤◌, length};
ghost use Rattle.bits.specs.Range.{in_range};
ghost use Rattle.bits.specs.Word.{word};

// Whether `x` is one of `low` to `high`, both included.
pub fn in_range(low: u8, high: u8, x: u8) -> bool
    ensures { result ≡ in_range low high x }
{
    low <= x && x <= high
}

// The number of two bytes, low first, at a place.
pub fn word_at(bytes: &[u8], at: usize) -> u16
    requires { at + 2 ≤ length bytes.now }
    ensures { result ≡ word bytes.now at }
{
    u16::from_le_bytes([bytes[at], bytes[at + 1]])
}
