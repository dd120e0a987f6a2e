// Prints the formula of a query typed as text (FORMAT 7.24). Its arguments are the number of relations, in decimal, and
// the text.
#![tactic(auto)]

ghost use Rattle.std.specs.Prelude.{◌≤◌, length};

use std::env::{Env, FillError};
use std::io;

fn print_usage(rt: &impl Print) -> io::Result<()> {
    rt.write_all(b"usage: list_query RELATIONS TEXT\n")
}

// Both slices are long enough for every query, so that no answer is a refusal.
fn print_listing(rt: &impl Print, m: u8, query: &[u8]) -> io::Result<()> {
    let mut work = [0u8; 65536];
    let mut text = [0u8; 32768];
    match query_listing::write_query_listing(m, query, &mut work, &mut text) {
        Ok(n) => rt.write_all(&text[..n]),
        Err(_) => Ok(()),
    }
}

// A number with one more digit, if the byte is one, and the number at most 255.
fn with_digit(value: u8, b: u8) -> Option<u8> {
    if !b.is_ascii_digit() {
        return None;
    }
    value.checked_mul(10)?.checked_add(b - b'0')
}

// The number that these digits are, if they are one of 0 to 255. The library's `parse` takes a sign before them too.
fn relations_of(digits: &[u8]) -> Option<u8> {
    if digits.is_empty() {
        return None;
    }
    let mut value = 0;
    for digit in digits {
        value = with_digit(value, *digit)?;
    }
    Some(value)
}

// Whether there is an argument i. One that the byte does not hold is there too.
fn has_argument(rt: &impl Env, i: usize) -> bool {
    let mut byte = [0u8; 1];
    !matches!(rt.arg(i, &mut byte), Err(FillError::NotPresent))
}

// The first argument's digits; one of over three bytes is no number of one byte, and counts as empty.
fn read_digits(rt: &impl Env, digits: &mut [u8]) -> usize
    ensures { result ≤ length digits.new }
{
    rt.arg(1, digits).unwrap_or(0)
}

// The argument as far as it fits into the slice: one byte more than a query has makes it too long (FORMAT 11.5).
fn read_text(rt: &impl Env, text: &mut [u8]) -> usize
    ensures { result ≤ length text.new }
{
    let most = text.len();
    rt.arg(2, text).unwrap_or(most)
}

fn main(rt: HostRuntime) -> io::Result<()> {
    if !has_argument(&rt, 2) || has_argument(&rt, 3) {
        return print_usage(&rt);
    }
    let mut digits = [0u8; 3];
    let n = read_digits(&rt, &mut digits);
    let Some(m) = relations_of(&digits[..n]) else {
        return print_usage(&rt);
    };
    let mut text = [0u8; 513];
    let size = read_text(&rt, &mut text);
    print_listing(&rt, m, &text[..size])
}
