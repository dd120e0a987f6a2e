// Runs two operations on what standard input gives, and prints their answers: Record (FORMAT 7.5), and Apply, then
// Recover (FORMAT 7.12).
//
// Input: the number of the node in one byte, the length of the file in two, low first, the file, the instantiation.
// Output: the length of the node's part of the file in one byte, that part, the answer of the second operation in one
// byte (0 recovered, 255 untyped, else the number of the refusal), and with 0 the instantiation recovered.
#![tactic(auto)]

use record::record;
use round_trip::apply_and_recover;
use standard_input::read_full;
use std::io;

fn print_byte(rt: &impl Print, byte: u8) -> io::Result<()> {
    let bytes = [byte];
    rt.write_all(&bytes)
}

// A node has at most 5 bytes, so that one byte holds the length (FORMAT 7.5).
fn print_record(rt: &impl Print, file: &[u8], node: usize) -> io::Result<()> {
    let part = record(file, node);
    print_byte(rt, part.len() as u8)?;
    rt.write_all(part)
}

// All slices are long enough for every file and every instantiation, so that no answer is 12 or 13 (FORMAT 7.12).
fn print_recovery(
    rt: &impl Print,
    file: &[u8],
    node: usize,
    instantiation: &[u8],
) -> io::Result<()> {
    let mut work = [0u8; 65536];
    let mut schema = [0u8; 4104];
    let mut out = [0u8; 513];
    let mut recovered = [0u8; 812];
    match apply_and_recover(
        file,
        node,
        instantiation,
        &mut work,
        &mut schema,
        &mut out,
        &mut recovered,
    ) {
        Ok(Some(n)) => {
            print_byte(rt, 0)?;
            rt.write_all(&recovered[..n])
        }
        Ok(None) => print_byte(rt, 255),
        Err(r) => print_byte(rt, r.number()),
    }
}

// Prints nothing where the input ends before the instantiation could begin.
fn print_answers(rt: &impl Print, input: &[u8]) -> io::Result<()> {
    if input.len() < 3 {
        return Ok(());
    }
    let node = input[0] as usize;
    let end = 3 + (input[1] as usize) + 256 * (input[2] as usize);
    if input.len() < end {
        return Ok(());
    }
    let file = &input[3..end];
    print_record(rt, file, node)?;
    print_recovery(rt, file, node, &input[end..])
}

// Reads at most 3 bytes, one more than the longest accepted file has (FORMAT 1.7), and one more than the longest
// instantiation has (FORMAT 6.6).
fn main(rt: HostRuntime) -> io::Result<()> {
    let mut input = [0u8; 1139];
    let n = read_full(&mut rt.reader(), &mut input)?;
    print_answers(&rt, &input[..n])
}
