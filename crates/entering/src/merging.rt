// Merging a list of attributes with earlier entries: two rising sequences.
ghost use Rattle.std.specs.Prelude.{◌⊎◌, ◌+◌, ◌*◌, ◌≤◌, ◌-◌, length, take};
ghost use Rattle.bits.specs.Tab.{tab};
ghost use Rattle.bits.specs.Word.{word};
ghost use Rattle.membership.specs.Entries.{entry, ListFits, enter as entries};
ghost use Rattle.entry_runs.specs.Runs.{Copying};
ghost use Rattle.entering.specs.Merging.{Enters, Merge, Merged};

use entry_runs::{Reached, copy_run, enter_one};

// How far a merge has come: listed attributes that are used up, and earlier entries and entries that are written.
#[derive(Clone, Copy)]
pub struct Merging {
    pub listed: usize,
    pub reached: Reached,
}

// Merges while there are both listed attributes and earlier entries.
fn merge(
    list: &[u8],
    count: usize,
    subset: u8,
    earlier: &[u32],
    old: usize,
    items: &mut [u32],
) -> Merging
    requires enters { Enters list.now count earlier.now old }
    requires in_bounds { count + old ≤ length items.old }
    ensures merge { Merge subset (tab count (λ x. word list.now (x * 2 + 1))) (take old earlier.now) items.old items.new result.listed result.reached.copied result.reached.entered }
    ensures fact { (count ≤ result.listed) ⊎ (old ≤ result.reached.copied) }
{
    let mut reached = Reached {
        copied: 0,
        entered: 0,
    };
    for i in 0..count {
        if old <= reached.copied {
            return Merging { listed: i, reached };
        }
        let a = bits::word_at(list, i * 2 + 1) as u32;
        reached = enter_one(
            a,
            subset,
            earlier,
            reached.copied,
            old,
            items,
            reached.entered,
        );
    }
    Merging {
        listed: count,
        reached,
    }
}

// Writes new entries for the listed attributes from number `from` on to the places from `at` on, and gives the place
// after them. The place k runs beside i, from another start: it is no other way of counting i.
fn append_listed(
    list: &[u8],
    from: usize,
    count: usize,
    subset: u8,
    items: &mut [u32],
    at: usize,
) -> usize
    requires list_fits { ListFits count list.now × (from ≤ count) }
    requires count_bound { (count ≤ 255) × (at + (count - from) ≤ length items.old) }
    ensures { Copying (tab count (λ x. entry (word list.now (x * 2 + 1)) subset)) from at items.old items.new count result }
{
    let mut k = at;
    for i in from..count {
        items[k] = bits::word_at(list, i * 2 + 1) as u32 * 256 + subset as u32;
        k += 1;
    }
    k
}

// Writes the entries once the relations in the subset hold the attributes of the list as well, and gives their number.
pub fn merge_into(
    list: &[u8],
    count: usize,
    subset: u8,
    earlier: &[u32],
    old: usize,
    items: &mut [u32],
) -> usize
    requires enters { Enters list.now count earlier.now old }
    requires in_bounds { count + old ≤ length items.old }
    ensures { Merged (entries subset (tab count (λ x. word list.now (x * 2 + 1))) (take old earlier.now)) items.new result }
{
    let merged = merge(list, count, subset, earlier, old, items);
    let reached = merged.reached;
    let end = append_listed(list, merged.listed, count, subset, items, reached.entered);
    copy_run(earlier, reached.copied, old, items, end)
}
