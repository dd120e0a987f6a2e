// The first allowed subset of each special attribute, off the work space; their memberships, and the relations that
// they leave without an attribute (FORMAT 7.7, 7.8).
#![tactic(auto)]

mod all_subsets;
mod list;
mod members;

ghost use Rattle.std.specs.Prelude.{◌≡◌, true, ◌<◌, MatchResult};
ghost use Rattle.verdict_answer.specs.First.{allowed_at, first_in, subsets_by};
ghost use Rattle.first_subsets.specs.SubsetList.{fewest_first, starts_in};

use crate::all_subsets::FEWEST_FIRST;
use crate::list::{STARTS, fewest_allowed};
use admission::FORMULA_SIZE;
pub use members::{count_memberships, uncovered_relations};
use stored_columns::column_of;
use verdict_answer::Subsets;

// The first allowed subset of each special attribute in a formula, 0 for attribute 0; or the lowest special attribute
// whose column allows nothing, with the first subsets of those below it.
fn first_in_columns(
    formula: &[u8; FORMULA_SIZE],
    list: &[u8],
    starts: &[u16],
) -> Result<[u8; 16], Subsets>
    requires { (fewest_first list.now ≡ true) × (starts_in list.now starts.now ≡ true) }
    ensures { MatchResult result (λ chosen. record { blocked = 16; chosen = chosen } ≡ subsets_by (first_in (allowed_at formula.now 0))) (λ subsets. (subsets.blocked < 16) × (subsets ≡ subsets_by (first_in (allowed_at formula.now 0)))) }
{
    let mut chosen = [0u8; 16];
    for i in 1u8..16 {
        let Some(s) = fewest_allowed(column_of(formula, i), list, starts) else {
            return Err(Subsets { blocked: i, chosen });
        };
        chosen[i as usize] = s;
    }
    Ok(chosen)
}

// The same, with the list of all subsets.
pub fn first_subsets(formula: &[u8; FORMULA_SIZE]) -> Result<[u8; 16], Subsets>
    ensures { MatchResult result (λ chosen. record { blocked = 16; chosen = chosen } ≡ subsets_by (first_in (allowed_at formula.now 0))) (λ subsets. (subsets.blocked < 16) × (subsets ≡ subsets_by (first_in (allowed_at formula.now 0)))) }
{
    first_in_columns(formula, &FEWEST_FIRST, &STARTS)
}
