// The first subset of the list of all that a column allows (FORMAT 7.8).
ghost use Rattle.std.specs.Prelude.{◌≡◌, true, MatchOption};
ghost use Rattle.column.specs.Column.{allowed_in};
ghost use Rattle.verdict_answer.specs.First.{fewest_in};
ghost use Rattle.first_subsets.specs.SubsetList.{fewest_first, starts_in};

use crate::members::fewest_members;
use column::allowed_in;

// Where in the list those with so many members begin; for 9 its end.
pub const STARTS: [u16; 10] = [0, 1, 9, 37, 93, 163, 219, 247, 255, 256];

// The first subset of such a list that a column allows. It is looked for among those with as many members as
// the column's subsets have at least.
fn first_listed(column: [u8; 64], list: &[u8], starts: &[u16]) -> Option<u8>
    requires { (fewest_first list.now ≡ true) × (starts_in list.now starts.now ≡ true) }
    ensures { MatchOption result (fewest_in (allowed_in column) ≡ 256) (λ s. s ≡ fewest_in (allowed_in column)) }
{
    for j in starts[fewest_members(&column) as usize] as usize..256 {
        let s = list[j];
        if allowed_in(&column, s as usize) {
            return Some(s);
        }
    }
    None
}

// The same; most columns allow the empty subset, which is the first.
pub fn fewest_allowed(column: [u8; 64], list: &[u8], starts: &[u16]) -> Option<u8>
    requires { (fewest_first list.now ≡ true) × (starts_in list.now starts.now ≡ true) }
    ensures { MatchOption result (fewest_in (allowed_in column) ≡ 256) (λ s. s ≡ fewest_in (allowed_in column)) }
{
    if allowed_in(&column, 0) {
        return Some(0);
    }
    first_listed(column, list, starts)
}
