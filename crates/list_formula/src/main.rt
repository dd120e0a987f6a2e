// Reads an expression file from standard input and prints its last node (FORMAT 7.14).
#![tactic(auto)]

use standard_input::read_full;
use std::io;

// Both slices are long enough for every file, so that no answer is a refusal.
fn print_listing(rt: &impl Print, file: &[u8]) -> io::Result<()> {
    let mut work = [0u8; 65536];
    let mut text = [0u8; 32768];
    match listing::write_listing(file, &mut work, &mut text) {
        Ok(n) => rt.write_all(&text[..n]),
        Err(_) => Ok(()),
    }
}

// The text depends on the first 323 bytes of the file alone (FORMAT 1.7).
fn main(rt: HostRuntime) -> io::Result<()> {
    let mut file = [0u8; 323];
    let n = read_full(&mut rt.reader(), &mut file)?;
    print_listing(&rt, &file[..n])
}
