// The entries of a membership table as columns of bits, sixty-four at a time.
#![tactic(auto)]

ghost use Rattle.std.specs.Prelude.{ℕ, List, ◌≡◌, ◌+◌, ◌≤◌, ◌/◌, ◌%◌, ◌^◌, ◌*◌, ◌<◌, ◌-◌, min, length, get_or};
ghost use Rattle.entry_columns.specs.EntryColumns.{transposed, Stacking, Groups};

// Rows and columns of eight by eight bits exchanged: bit 8 r + j comes from bit 8 j + r.
fn transpose(x: u64) -> u64
    ensures { result ≡ transposed x }
{
    let a = 0x00aa00aa00aa00aa & (x ^ (x >> 7));
    let y = (x ^ a) ^ (a << 7);
    let b = 0x0000cccc0000cccc & (y ^ (y >> 14));
    let z = (y ^ b) ^ (b << 14);
    let c = 0x00000000f0f0f0f0 & (z ^ (z >> 28));
    (z ^ c) ^ (c << 28)
}

// Eight or fewer bytes, the first as the lowest.
fn stack<F: Fn(usize) -> u8>(n: usize, byte: F) -> u64
    requires { (j : ℕ) → j < n → F.pre byte j }
    ensures { (list : List ℕ) (s from : ℕ) → from + n ≤ length list → ((j b : ℕ) → j < n → F.post byte j b → b ≡ get_or list (from + j) 0 / 2 ^ s % 256) → Stacking list s from n 0 result }
{
    let mut x = 0u64;
    for j in (0..n).rev() {
        x = (x << 8) | byte(j) as u64;
    }
    x
}

// All entries, eight to a group: byte r of group g has a bit for each of entries 8 g to 8 g + 7 that relation r holds.
// The number eight stands in a call of its own, so that the compiler can unroll that loop.
pub fn gather_subsets(entries: &[u32], groups: &mut [u64])
    requires { (length entries.now + 7) / 8 ≤ length groups.old }
    ensures { Groups entries.now (length entries.now) groups.new }
{
    let count = entries.len();
    let full = count / 8;
    for g in 0..full {
        groups[g] = transpose(stack(8, |j| (entries[g * 8 + j] % 256) as u8));
    }
    if full * 8 == count {
        return;
    }
    groups[full] = transpose(stack(count - full * 8, |j| (entries[full * 8 + j] % 256) as u8));
}

// Byte r of up to eight of the groups from `from` on, the first as the lowest.
pub fn held_word(groups: &[u64], r: u8, from: usize) -> u64
    requires { (r < 8) × (from < length groups.now) }
    ensures { Stacking groups.now (r * 8) from (min 8 (length groups.now - from)) 0 result }
{
    let s = r * 8;
    let byte = |i: usize| ((groups[from + i] >> s) % 256) as u8;
    if from + 8 <= groups.len() {
        return stack(8, byte);
    }
    stack(groups.len() - from, byte)
}
