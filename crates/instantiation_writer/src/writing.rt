// Writing an instantiation from the membership table (FORMAT 6.1).
ghost use Rattle.std.specs.Prelude.{◌≡◌, length, get_or, ◌+◌, ◌≤◌};
ghost use Rattle.bits.specs.Tab.{tab, over};
ghost use Rattle.instantiation.specs.Instantiation.{lists_of, instantiation_bytes, WritesFrom, instantiation_size};

use crate::lists::write_lists;
use crate::maps::write_map;
use copying::copy_bytes;
use entry_sorting::sort_by_subset;

// Writes the subsets of the special attributes 1 to 15 to the front of the slice.
fn write_special(out: &mut [u8], subsets: &[u8])
    requires subsets_len { length subsets.now ≡ 16 }
    requires in_bounds { 15 ≤ length out.old }
    ensures { out.new ≡ over (tab 15 (λ i. get_or subsets.now (i + 1) 0)) out.old }
{
    copy_bytes(out, 0, &subsets[1..], 15);
}

// Writes the instantiation of these subsets and entries to the front of the slice, and gives its length. The last slice
// is for the entries by subset, and free afterwards.
pub fn write_instantiation(
    out: &mut [u8],
    subsets: &[u8],
    entries: &[u32],
    spare: &mut [u32],
) -> usize
    requires writes_from { WritesFrom subsets.now entries.now (length entries.now) }
    requires instantiation_size_in_bounds { (instantiation_size ≤ length out.old) × (length entries.now ≤ length spare.old) }
    ensures value { result ≡ length (instantiation_bytes subsets.now (lists_of entries.now)) }
    ensures out_after { out.new ≡ over (instantiation_bytes subsets.now (lists_of entries.now)) out.old }
{
    sort_by_subset(entries, spare);
    write_special(out, subsets);
    write_map(&mut out[15..], entries);
    47 + write_lists(&mut out[47..], &spare[..entries.len()])
}
