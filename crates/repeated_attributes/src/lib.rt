// Whether the lists of an instantiation name an attribute twice: refusal 19.
#![tactic(auto)]

ghost use Rattle.std.specs.Prelude.{◌≡◌, List, ◌+◌, ◌*◌, ◌≤◌, ◌<◌, ℕ, ◌||◌, length, drop};
ghost use Rattle.bits.specs.Tab.{tab};
ghost use Rattle.bits.specs.Word.{word};
ghost use Rattle.membership.specs.Entries.{ListFits};
ghost use Rattle.instantiation.specs.Seen.{seen_in, repeated_in, Marked, nothing_seen};
ghost use Rattle.instantiation.specs.Instantiation.{standing, read_lists, all_listed};
ghost use Rattle.refusal.specs.Several.{several_read as lists_read};

use type_record::read_list;

// Marks the attributes of a list as seen, and tells whether one of them was seen before.
fn mark(list: &[u8], count: usize, seen: &mut [u8]) -> bool
    requires count_bound { (count ≤ 255) × (length seen.old ≡ 8192) }
    requires list_fits { ListFits count list.now }
    ensures value { result ≡ repeated_in (seen_in seen.old) (tab count (λ x. word list.now (x * 2 + 1))) }
    ensures marked { Marked (tab count (λ x. word list.now (x * 2 + 1))) seen.old seen.new }
{
    let mut repeated = false;
    for i in 0..count {
        let a = bits::word_at(list, i * 2 + 1) as usize;
        let byte = seen[a / 8];
        let again = (byte >> (a % 8)) % 2 == 1;
        repeated |= again;
        seen[a / 8] = byte | (1u8 << (a % 8));
    }
    repeated
}

// Whether the bit of s stands in the map.
fn is_standing(bytes: &[u8], s: usize) -> bool
    requires { (47 ≤ length bytes.now) × (s < 256) }
    ensures { result ≡ standing bytes.now s }
{
    (bytes[15 + s / 8] >> (s % 8)) % 2 == 1
}

// Whether an attribute is in two of the lists in these bytes, where all of them can be read (FORMAT 6.2).
pub fn repeated_in(bytes: &[u8]) -> bool
    requires { 47 ≤ length bytes.now }
    ensures { (ls : List (List ℕ)) → read_lists bytes.now 256 0 (drop 47 bytes.now) ≡ lists_read ls → result ≡ repeated_in nothing_seen (all_listed ls) }
{
    let mut seen = [0u8; 8192];
    let mut repeated = false;
    let mut at = 47;
    for s in 0..256 {
        if is_standing(bytes, s) {
            match read_list(&bytes[at..]) {
                Err(_) => return false,
                Ok(count) => {
                    let again = mark(&bytes[at..], count, &mut seen);
                    repeated |= again;
                    at += count * 2 + 1;
                }
            }
        }
    }
    repeated
}
