// Runs the agreement of two operands (FORMAT 3.13) on what standard input gives, and prints what it makes.
//
// Input: groups of four bytes, the allowed and the output byte of the left operand, then those of the right one.
// Output: for each group the allowed and the output byte of the result. Bytes after the last whole group are not
// looked at.
#![tactic(auto)]

ghost use Rattle.std.specs.Prelude.{◌≤◌, length};

use column::{Bytes, agreeing_bytes};
use standard_input::read_full;
use std::io;

// Two bytes for each whole group of the input.
fn print_agreements(rt: &impl Print, input: &[u8]) -> io::Result<()>
    requires { length input.now ≤ 65536 }
{
    let (groups, _) = input.as_chunks::<4>();
    let mut made = [0u8; 32768];
    let (pairs, _) = made.as_chunks_mut::<2>();
    for (group, pair) in groups.iter().zip(pairs.iter_mut()) {
        let [allowed, output, other_allowed, other_output] = *group;
        let left = Bytes { allowed, output };
        let right = Bytes {
            allowed: other_allowed,
            output: other_output,
        };
        let bytes = agreeing_bytes(left, right);
        *pair = [bytes.allowed, bytes.output];
    }
    rt.write_all(&made[..2 * groups.len()])
}

// Reads at most 16,384 groups.
fn main(rt: HostRuntime) -> io::Result<()> {
    let mut input = [0u8; 65536];
    let n = read_full(&mut rt.reader(), &mut input)?;
    print_agreements(&rt, &input[..n])
}
