// Writing the lists of an instantiation from entries that are sorted by subset.
ghost use Rattle.std.specs.Prelude.{◌≡◌, ◌+◌, ◌≤◌, ◌<◌, length};
ghost use Rattle.bits.specs.Tab.{over};
ghost use Rattle.type_record.specs.Lists.{list_bytes};
ghost use Rattle.instantiation.specs.Instantiation.{lists_of, lists_bytes};
ghost use Rattle.instantiation.specs.Runs.{list_at, BySubset};

// Writes the list of the subset that entry i has, whose entries stand from i on, to the front of the slice, and gives
// the entry after the last of them. The loop is a `while`, as it ends at the end or at another subset, and where it
// ended is the answer.
fn write_list(out: &mut [u8], sorted: &[u32], i: usize) -> usize
    requires by_subset { BySubset sorted.now (length sorted.now) × (i < length sorted.now) }
    requires i_in_bounds { length (list_bytes (list_at sorted.now i)) ≤ length out.old }
    ensures value { result ≡ i + length (list_at sorted.now i) }
    ensures out_after { out.new ≡ over (list_bytes (list_at sorted.now i)) out.old }
{
    let s = sorted[i] % 256;
    let mut j = i;
    while j < sorted.len() && sorted[j] % 256 == s {
        let a = sorted[j] / 256;
        out[(j - i) * 2 + 1] = (a % 256) as u8;
        out[(j - i) * 2 + 2] = (a / 256) as u8;
        j += 1;
    }
    out[0] = (j - i) as u8;
    j
}

// Writes the lists of all subsets to the front of the slice, and gives their length. The loop is a `while`, as each step
// goes on after a list's last entry.
pub fn write_lists(out: &mut [u8], sorted: &[u32]) -> usize
    requires by_subset { BySubset sorted.now (length sorted.now) }
    requires in_bounds { 765 ≤ length out.old }
    ensures value { result ≡ length (lists_bytes (lists_of sorted.now)) }
    ensures out_after { out.new ≡ over (lists_bytes (lists_of sorted.now)) out.old }
{
    let mut at = 0;
    let mut i = 0;
    while i < sorted.len() {
        let j = write_list(&mut out[at..], sorted, i);
        at += (j - i) * 2 + 1;
        i = j;
    }
    at
}
