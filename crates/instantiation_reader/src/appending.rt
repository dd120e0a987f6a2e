// Appending the entries of a list, in the order of the bytes.
ghost use Rattle.std.specs.Prelude.{◌++◌, map, ◌+◌, ◌*◌, take};
ghost use Rattle.bits.specs.Tab.{tab};
ghost use Rattle.bits.specs.Word.{word};
ghost use Rattle.membership.specs.Entries.{entry, TableIn};
ghost use Rattle.instantiation.specs.Gathering.{Appends};

// Writes the entries of the list's attributes under a subset from place k on, up to place 256, and gives the place
// after them. The place runs beside i, from another start.
pub fn append(items: &mut [u32], k: usize, list: &[u8], count: usize, subset: u8) -> usize
    requires { Appends list.now count items.old k }
    ensures { TableIn (take k items.old ++ map (λ a. entry a subset) (tab count (λ x. word list.now (x * 2 + 1)))) items.new result }
{
    let mut at = k;
    for i in 0..count {
        if 256 <= at {
            return at;
        }
        items[at] = bits::word_at(list, i * 2 + 1) as u32 * 256 + subset as u32;
        at += 1;
    }
    at
}
