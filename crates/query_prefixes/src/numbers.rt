// Numbers of one or two digits (FORMAT 11.4).
ghost use Rattle.std.specs.Prelude.{◌≡◌};
ghost use Rattle.query_language.specs.Parse.{is_digit, number_at, ended_number};
ghost use Rattle.query_prefixes.specs.Answers.{Placed, number_answer};

use crate::places::byte_at;

// A number and the place after it.
#[derive(Clone, Copy)]
pub struct Number {
    pub value: u8,
    pub next: usize,
}

// Whether a byte is 0 to 9.
pub fn is_digit(b: u8) -> bool
    ensures { result ≡ is_digit b }
{
    b.is_ascii_digit()
}

// The number at a place, if there is one.
pub fn number_at(text: &[u8], at: usize) -> Option<Number>
    requires { Placed text.now at }
    ensures { result ≡ number_answer (number_at text.now at) }
{
    let b = byte_at(text, at);
    if !is_digit(b) {
        return None;
    }
    let value = b - b'0';
    if b == b'0' {
        return Some(Number {
            value,
            next: at + 1,
        });
    }
    let c = byte_at(text, at + 1);
    if is_digit(c) {
        return Some(Number {
            value: value * 10 + (c - b'0'),
            next: at + 2,
        });
    }
    Some(Number {
        value,
        next: at + 1,
    })
}

// The number at a place, if the byte `b` ends it: the place is that after this byte.
pub fn ended_number(text: &[u8], at: usize, b: u8) -> Option<Number>
    requires { Placed text.now at }
    ensures { result ≡ number_answer (ended_number text.now b at) }
{
    let number = number_at(text, at)?;
    if byte_at(text, number.next) != b {
        return None;
    }
    Some(Number {
        value: number.value,
        next: number.next + 1,
    })
}
