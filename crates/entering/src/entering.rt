// Entering a list of attributes into a table in place.
ghost use Rattle.std.specs.Prelude.{◌≡◌, true, ◌+◌, ◌*◌, ◌≤◌, take, length};
ghost use Rattle.bits.specs.Tab.{tab};
ghost use Rattle.bits.specs.Word.{word};
ghost use Rattle.membership.specs.Entries.{enter as entries, TableIn};
ghost use Rattle.entering.specs.Merging.{Enters};
ghost use Rattle.entering.specs.Entering.{CopyFits};

use crate::merging::merge_into;
use entry_runs::{copy_run, mark_one};

// Adds the subset to the entries of the listed attributes, up to the first attribute that has none: whether there is
// no such attribute. What entering the list gives is the same before and after.
fn mark(list: &[u8], count: usize, subset: u8, items: &mut [u32], old: usize) -> bool
    requires { Enters list.now count items.old old }
    ensures unchanged { entries subset (tab count (λ x. word list.now (x * 2 + 1))) (take old items.new) ≡ entries subset (tab count (λ x. word list.now (x * 2 + 1))) (take old items.old) }
    ensures table_in { result ≡ true → TableIn (entries subset (tab count (λ x. word list.now (x * 2 + 1))) (take old items.old)) items.new old }
{
    let mut j = 0;
    for i in 0..count {
        let a = bits::word_at(list, i * 2 + 1) as u32;
        let Ok(place) = mark_one(items, j, old, a, subset) else {
            return false;
        };
        j = place + 1;
    }
    true
}

// Copies the first entries to the front of the table, up to 256 of them, and gives their number.
fn copy_entries(source: &[u32], count: usize, items: &mut [u32]) -> usize
    requires { (count ≤ length source.now) × CopyFits count 0 items.old }
    ensures { TableIn (take count source.now) items.new result }
{
    copy_run(source, 0, count.min(256), items, 0)
}

// Enters the attributes of the list for the relations in the subset, and gives the number of the entries. Where one of
// them has no entry, all are merged in the second slice, which is free afterwards, and copied back. The table is a slice
// with its number of entries beside it, as it grows into the room after them.
pub fn enter(
    list: &[u8],
    count: usize,
    subset: u8,
    items: &mut [u32],
    old: usize,
    spare: &mut [u32],
) -> usize
    requires enters { Enters list.now count items.old old }
    requires copy_fits { CopyFits count old items.old × (count + old ≤ length spare.old) }
    ensures { TableIn (entries subset (tab count (λ x. word list.now (x * 2 + 1))) (take old items.old)) items.new result }
{
    if mark(list, count, subset, items, old) {
        return old;
    }
    let merged = merge_into(list, count, subset, items, old, spare);
    copy_entries(spare, merged, items)
}
