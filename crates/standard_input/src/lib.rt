// Reading an input as far as a slice holds it.
#![tactic(auto)]

ghost use Rattle.std.specs.Prelude.{◌≤◌, length, take, IfOk};
ghost use Rattle.std.specs.Io.KnownBytes.{Consumes};

use std::io;
use std::io::{ErrorKind, Read};

// Reads until the slice is full or the input ends, and gives how many bytes it read: they stand at the slice's front,
// and are what the input has given.
pub fn read_full<R: Read>(input: &mut R, bytes: &mut [u8]) -> io::Result<usize>
    ensures within { IfOk result (λ n. n ≤ length bytes.new) }
    ensures read { IfOk result (λ n. Consumes (R.remaining input.old) (R.remaining input.new) (take n bytes.new)) }
{
    let mut n = 0;
    for _ in 0..u64::MAX {
        if bytes.len() <= n {
            return Ok(n);
        }
        match input.read(&mut bytes[n..]) {
            Ok(0) => return Ok(n),
            Ok(more) => n += more,
            Err(e) => {
                if e.kind() != ErrorKind::Interrupted {
                    return Err(e);
                }
            }
        }
    }
    Ok(n)
}
