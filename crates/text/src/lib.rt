// Characters, written to a text one behind the other.
#![tactic(auto)]

ghost use Rattle.std.specs.Prelude.{◌≡◌, [], ◌∷◌, ◌+◌, ◌≤◌, ◌<◌, length, take};
ghost use Rattle.text.specs.Put.{Wrote};
ghost use Rattle.text.specs.Characters.{decimal, hex_digit, subset_text};
ghost use Rattle.text.specs.Written.{HasRoom, Writes};

use copying::copy_bytes;

// A text, and the place after what is written to it.
#[derive(Drop)]
pub struct Writer<'a> {
    text: &'a mut [u8],
    at: usize,
}

impl<'a> Writer<'a> {
    // Writes from the text's front on.
    pub fn new(text: &'a mut [u8]) -> Writer<'a>
        ensures same_reference { result.text.ghost_name ≡ text.entry.ghost_name }
        ensures same_text { result.text.now ≡ text.old }
        ensures front { result.at ≡ 0 }
    {
        Writer { text, at: 0 }
    }

    // Writes from a place on.
    pub fn at(text: &'a mut [u8], at: usize) -> Writer<'a>
        ensures same_reference { result.text.ghost_name ≡ text.entry.ghost_name }
        ensures same_text { result.text.now ≡ text.old }
        ensures place { result.at ≡ at }
    {
        Writer { text, at }
    }

    // The place after what is written.
    pub fn len(&self) -> usize
        ensures { result ≡ self.now.at }
    {
        self.at
    }

    // The text up to that place.
    pub fn written(&self) -> &[u8]
        requires { HasRoom 0 self.now }
        ensures { result.now ≡ take self.now.at self.now.text.now }
    {
        &self.text[..self.at]
    }

    // One byte.
    pub fn write_byte(&mut self, b: u8)
        requires { HasRoom 1 self.old }
        ensures { Writes (b ∷ []) self.old self.new }
    {
        self.text[self.at] = b;
        self.at += 1;
    }

    // These bytes.
    pub fn write_bytes(&mut self, bytes: &[u8])
        requires { HasRoom (length bytes.now) self.old }
        ensures { Writes bytes.now self.old self.new }
    {
        self.at = write_bytes(self.text, self.at, bytes);
    }

    // A number below 100, without leading zeros (FORMAT 7.16).
    pub fn write_decimal(&mut self, n: u8)
        requires { (n < 100) × HasRoom 2 self.old }
        ensures wrote { Writes (decimal n) self.old self.new }
        ensures upper_bound { self.new.at ≤ self.old.at + 2 }
    {
        if 10 <= n {
            self.write_byte(b'0' + n / 10);
        }
        self.write_byte(b'0' + n % 10);
    }

    // A subset: a space and two hexadecimal digits (FORMAT 7.16).
    pub fn write_subset(&mut self, s: u8)
        requires { HasRoom 3 self.old }
        ensures wrote { Writes (subset_text s) self.old self.new }
        ensures value { self.new.at ≡ self.old.at + 3 }
    {
        self.write_byte(b' ');
        self.write_byte(hex_digit(s / 16));
        self.write_byte(hex_digit(s % 16));
    }
}

// These bytes from a place on; gives the place after them.
pub fn write_bytes(text: &mut [u8], at: usize, bytes: &[u8]) -> usize
    requires { at + length bytes.now ≤ length text.old }
    ensures { Wrote at bytes.now text.old text.new result }
{
    let n = bytes.len();
    copy_bytes(text, at, bytes, n);
    at + n
}

// A hexadecimal digit, with small letters.
fn hex_digit(d: u8) -> u8
    requires { d < 16 }
    ensures { result ≡ hex_digit d }
{
    if d < 10 {
        return b'0' + d;
    }
    b'a' - 10 + d
}
