// Whether lists begin with the same bytes.
ghost use Rattle.std.specs.Prelude.{◌≡◌, cond, ◌≤◌, eqb, length};
ghost use Rattle.cover_table.specs.Alike.{alike};

// 1 where two bytes differ, else 0.
fn difference(a: u8, b: u8) -> u16
    ensures { result ≡ cond (eqb a b) 0 1 }
{
    if a == b { 0 } else { 1 }
}

// Whether the first n bytes are the same. All are looked at, without a branch, so that the compiler takes many at a
// time.
pub fn same_bytes(a: &[u8], b: &[u8], n: usize) -> bool
    requires { (n ≤ 256) × (n ≤ length a.now) × (n ≤ length b.now) }
    ensures { result ≡ alike n a.now b.now }
{
    let mut differences = 0u16;
    for i in 0..n {
        differences += difference(a[i], b[i]);
    }
    differences == 0
}
