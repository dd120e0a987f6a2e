// The byte at a place of a text.
ghost use Rattle.std.specs.Prelude.{◌≡◌, get_or};

// The byte at a place, 0 past the end: no text of a query has a byte 0.
pub fn byte_at(text: &[u8], at: usize) -> u8
    ensures { result ≡ get_or text.now at 0 }
{
    text.get(at).copied().unwrap_or(0)
}
