// Lists of attributes in square brackets (FORMAT 11.3).
ghost use Rattle.std.specs.Prelude.{◌≡◌, true};
ghost use Rattle.attribute_set.specs.AttrSet.{empty_set};
ghost use Rattle.query_language.specs.Parse.{items_at, list_at};
ghost use Rattle.query_prefixes.specs.Answers.{Placed, list_answer};

use crate::numbers::number_at;
use crate::places::byte_at;
use attribute_set::{AttrSet, is_special};

// The set of a list, whether all its attributes are special, and the place after the bracket that closes it.
#[derive(Clone, Copy)]
pub struct AttributeList {
    pub set: AttrSet,
    pub special: bool,
    pub next: usize,
}

// The items from a place on, at least one, each above the one before. A `loop`: which item is the last one is seen only
// behind it, and a bound on their number would be a second end that no text comes to.
fn items_at(text: &[u8], start: usize) -> Option<AttributeList>
    requires { Placed text.now start }
    ensures { result ≡ list_answer empty_set true (items_at text.now 0 start) }
{
    let mut set = AttrSet::empty();
    let mut special = true;
    let mut low = 0;
    let mut at = start;
    loop {
        let number = number_at(text, at)?;
        if number.value < low {
            return None;
        }
        set = set.add(number.value);
        special = special && is_special(number.value);
        match byte_at(text, number.next) {
            b']' => return Some(AttributeList {
                set,
                special,
                next: number.next + 1,
            }),
            b',' => {
                low = number.value + 1;
                at = number.next + 1;
            }
            _ => return None,
        }
    }
}

// The list at a place, after the bracket that opens it, if there is one.
pub fn list_at(text: &[u8], at: usize) -> Option<AttributeList>
    requires { Placed text.now at }
    ensures { result ≡ list_answer empty_set true (list_at text.now at) }
{
    if byte_at(text, at) == b']' {
        return Some(AttributeList {
            set: AttrSet::empty(),
            special: true,
            next: at + 1,
        });
    }
    items_at(text, at)
}
