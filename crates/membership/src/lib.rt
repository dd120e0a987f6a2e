// The membership table: the ordinary attributes of a schema or an instantiation, in rising order, each with the
// subset of the relations that hold it.
#![tactic(auto)]

ghost use Rattle.std.specs.Prelude.{◌≡◌, ℕ, ◌≤◌, ◌<◌, Bool, length, take, get_or};
ghost use Rattle.membership.specs.Holders.{held_by, kept, ItemsFit};

// Lists the attributes of the entries at which the closure, given the number of an entry and the entry, tells true, and
// gives their number. What stands in the list after them is free. Each attribute is written, and counts by its bit:
// there is no branch in the loop.
pub fn list_where<F: Fn(usize, u32) -> bool>(entries: &[u32], list: &mut [u32], holds: F) -> usize
    requires callable { (i : ℕ) → i < length entries.now → F.pre holds i (get_or entries.now i 0) }
    requires in_bounds { length entries.now ≤ length list.old }
    ensures { (test : ℕ → Bool) → ((i : ℕ) (b : Bool) → i < length entries.now → F.post holds i (get_or entries.now i 0) b → b ≡ test (get_or entries.now i 0)) → (result ≡ length (kept test entries.now)) × (take result list.new ≡ kept test entries.now) }
{
    let mut k = 0;
    for (i, e) in entries.iter().enumerate() {
        list[k] = *e / 256;
        k += holds(i, *e) as usize;
    }
    k
}

// Lists the attributes of the entries whose subset has relation r, and gives their number. What stands in the list after
// them is free.
pub fn held_by(entries: &[u32], r: u8, list: &mut [u32]) -> usize
    requires r_bound { r < 8 }
    requires items_fit { ItemsFit entries.now (length entries.now) }
    requires in_bounds { length entries.now ≤ length list.old }
    ensures value { result ≡ length (held_by r entries.now) }
    ensures list_after { take result list.new ≡ held_by r entries.now }
{
    list_where(entries, list, |_, e| (e >> r) % 2 == 1)
}
