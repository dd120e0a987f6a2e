// The special attributes of a membership table: as a subset for each attribute, and as a map for
// each relation (FORMAT 6.4).
#![tactic(auto)]

ghost use Rattle.std.specs.Prelude.{◌≡◌, ℕ, ◌^◌, ◌<◌, ◌≤◌, Bool, length};
ghost use Rattle.bits.specs.Pack.{pack};
ghost use Rattle.special_maps.specs.Special.{map_of, maps_from, subset_from, subsets_from};

use std::array::from_fn;

// The number of n bits whose bit i stands where the closure tells so.
pub fn pack<F: Fn(usize) -> bool>(n: usize, stands: F) -> u16
    requires callable { (i : ℕ) → i < n → F.pre stands i }
    requires n_bound { n ≤ 16 }
    ensures small { result < 2 ^ n }
    ensures value { (f : ℕ → Bool) → ((i : ℕ) (b : Bool) → i < n → F.post stands i b → b ≡ f i) → result ≡ pack n f }
{
    let mut x = 0u16;
    for i in (0..n).rev() {
        x = x * 2 + stands(i) as u16;
    }
    x
}

// The map of relation r: bit i stands where r belongs to attribute i's subset.
fn map_of(subsets: &[u8], r: usize) -> u16
    requires { (length subsets.now ≡ 16) × (r < 8) }
    ensures { result ≡ map_of subsets.now r }
{
    pack(16, |i| (subsets[i] >> r) % 2 == 1)
}

// The maps of all relations.
pub fn maps_from(subsets: &[u8]) -> [u16; 8]
    requires { length subsets.now ≡ 16 }
    ensures { result ≡ maps_from subsets.now }
{
    from_fn(|r| map_of(subsets, r))
}

// The subset of attribute i: bit r stands where relation r's map has i.
fn subset_of(maps: &[u16], i: usize) -> u8
    requires { (length maps.now ≡ 8) × (i < 16) }
    ensures { result ≡ subset_from maps.now i }
{
    pack(8, |r| (maps[r] >> i) % 2 == 1) as u8
}

// The subsets of all attributes.
pub fn subsets_from(maps: &[u16]) -> [u8; 16]
    requires { length maps.now ≡ 8 }
    ensures { result ≡ subsets_from maps.now }
{
    from_fn(|i| subset_of(maps, i))
}
