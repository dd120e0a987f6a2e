// Writing the plane that says which lists of an instantiation are not empty (FORMAT 6.1).
ghost use Rattle.std.specs.Prelude.{◌≡◌, ◌≤◌, ℕ, ◌<◌, length, get_or};
ghost use Rattle.bits.specs.Tab.{tab, over};
ghost use Rattle.instantiation.specs.Instantiation.{lists_of, map_byte};

// Clears the 32 bytes of the map.
fn clear_map(out: &mut [u8])
    requires { 32 ≤ length out.old }
    ensures { out.new ≡ over (tab 32 (λ j. 0)) out.old }
{
    out[..32].fill(0);
}

// Sets the bit of each entry's subset in a map that is clear.
fn set_bits(out: &mut [u8], entries: &[u32])
    requires { (32 ≤ length out.old) × ((j : ℕ) → j < 32 → get_or out.old j 0 ≡ 0) }
    ensures { out.new ≡ over (tab 32 (map_byte (lists_of entries.now))) out.old }
{
    for e in entries {
        let s = (*e % 256) as usize;
        out[s / 8] |= 1u8 << (s % 8);
    }
}

// Writes the map of the lists of these entries to the front of the slice.
pub fn write_map(out: &mut [u8], entries: &[u32])
    requires { 32 ≤ length out.old }
    ensures { out.new ≡ over (tab 32 (map_byte (lists_of entries.now))) out.old }
{
    clear_map(out);
    set_bits(out, entries);
}
