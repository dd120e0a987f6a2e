// Whether a node is typable, and with how many memberships: the verdict without its witness (FORMAT 7.28).
#![tactic(auto)]

ghost use Rattle.std.specs.Prelude.{◌≡◌, ◌*◌, ◌≤◌, length};
ghost use Rattle.cover_table.specs.Table.{row_width};
ghost use Rattle.verdict_answer.specs.First.{allowed_at, blocked_in};
ghost use Rattle.verdict_answer.specs.Formed.{Formed};
ghost use Rattle.verdict_answer.specs.Verdict.{outcome_in};
ghost use Rattle.verdict_answer.specs.Typability.{without_witness};

use admission::FORMULA_SIZE;
use cover_table::{all_relations, fill_costs};
use first_subsets::{count_memberships, first_subsets, uncovered_relations};
use verdict_answer::Typability;

// The same of a formula each of whose columns allows something, by a table of costs that is filled here, and free
// afterwards.
fn table_typability(formula: &[u8; FORMULA_SIZE], m: u8, table: &mut [u8]) -> Typability
    requires m_bound { (m ≤ 8) × (16 ≤ blocked_in (allowed_at formula.now 0)) × (16 * row_width m ≤ length table.old) }
    requires formed { Formed m (allowed_at formula.now 0) }
    ensures { result ≡ without_witness (outcome_in m (allowed_at formula.now 0)) }
{
    let cost = fill_costs(formula, m, table);
    if cost < 200 {
        return Typability::Typable(cost);
    }
    Typability::Untypable(0)
}

// The same, with a table as large as so many relations need.
fn searched_typability(formula: &[u8; FORMULA_SIZE], m: u8) -> Typability
    requires m_bound { (m ≤ 8) × (16 ≤ blocked_in (allowed_at formula.now 0)) }
    requires formed { Formed m (allowed_at formula.now 0) }
    ensures { result ≡ without_witness (outcome_in m (allowed_at formula.now 0)) }
{
    if m <= 4 {
        let mut table = [0u8; 256];
        return table_typability(formula, m, &mut table);
    }
    let mut table = [0u8; 4096];
    table_typability(formula, m, &mut table)
}

// Whether a node is typable, by its formula. Where the first subsets of the special attributes give every relation an
// attribute, it is, and their memberships are the fewest.
pub fn typability(formula: &[u8; FORMULA_SIZE], m: u8) -> Typability
    requires { (m ≤ 8) × Formed m (allowed_at formula.now 0) }
    ensures { result ≡ without_witness (outcome_in m (allowed_at formula.now 0)) }
{
    let chosen = match first_subsets(formula) {
        Ok(chosen) => chosen,
        Err(subsets) => return Typability::Untypable(subsets.blocked),
    };
    if uncovered_relations(&chosen, all_relations(m)) == 0 {
        return Typability::Typable(count_memberships(&chosen));
    }
    searched_typability(formula, m)
}
