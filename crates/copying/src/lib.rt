// Bytes copied to a place of a slice.
#![tactic(auto)]

ghost use Rattle.std.specs.Prelude.{◌≡◌, ◌+◌, ◌≤◌, length};
ghost use Rattle.std.proofs.Math.Seq.{paste};

// Copies the first n bytes of one slice to the other, from `at` on.
pub fn copy_bytes(to: &mut [u8], at: usize, from: &[u8], n: usize)
    requires { (at + n ≤ length to.old) × (n ≤ length from.now) }
    ensures { to.new ≡ paste to.old at from.now n }
{
    for i in 0..n {
        to[at + i] = from[i];
    }
}
