// Verdict (FORMAT 7.7): a witness schema, or the attribute that leaves none.
#![tactic(auto)]

mod witness;

ghost use Rattle.std.specs.Prelude.{◌≡◌, ◌≤◌, length};
ghost use Rattle.schema.specs.Schema.{schema_size};
ghost use Rattle.verdict_answer.specs.First.{allowed_at};
ghost use Rattle.verdict_answer.specs.Formed.{Formed};
ghost use Rattle.verdict_answer.specs.Verdict.{outcome_in, schema_in, verdict_answer, verdict_space, verdict_schema};

use crate::witness::{searched_verdict, write_witness};
use accepted_file::AcceptedFile;
use admission::{FORMULA_SIZE, admit, with_slice};
use cover_table::all_relations;
use filling::fill;
use first_subsets::{count_memberships, first_subsets, uncovered_relations};
use refusal::Refusal;
use schema::SCHEMA_SIZE;
use stored_columns::formula_of;
use verdict_answer::Outcome;

// The verdict on a node, by its formula. Where the first subsets of the special attributes give
// every relation an attribute, they are the choice.
fn stored_verdict(formula: &[u8; FORMULA_SIZE], m: u8, schema: &mut [u8]) -> Outcome
    requires m_bound { (m ≤ 8) × (schema_size ≤ length schema.old) }
    requires formed { Formed m (allowed_at formula.now 0) }
    ensures value { result ≡ outcome_in m (allowed_at formula.now 0) }
    ensures schema_after { schema.new ≡ schema_in m (allowed_at formula.now 0) schema.old }
{
    let chosen = match first_subsets(formula) {
        Ok(chosen) => chosen,
        Err(subsets) => return Outcome::Untypable(subsets.blocked),
    };
    if uncovered_relations(&chosen, all_relations(m)) == 0 {
        let size = write_witness(schema, m, &chosen, &[]);
        return Outcome::Typable(size, count_memberships(&chosen));
    }
    searched_verdict(formula, m, schema)
}

// Verdict (FORMAT 7.7), or the first refusal of 1 to 13 (FORMAT 8.5). The witness has the fewest memberships, and their
// number comes with it.
pub fn verdict(
    file: &[u8],
    node: usize,
    work: &mut [u8],
    schema: &mut [u8],
) -> Result<Outcome, Refusal>
    ensures value { result ≡ verdict_answer file.now node (length work.old) (length schema.old) }
    ensures work_after { work.new ≡ verdict_space file.now node work.old (length schema.old) }
    ensures schema_after { schema.new ≡ verdict_schema file.now node (length work.old) schema.old }
{
    let header = with_slice(admit(file, node, work.len()), schema.len(), SCHEMA_SIZE)?;
    let accepted = AcceptedFile {
        bytes: file,
        header,
    };
    fill(&accepted, work);
    Ok(stored_verdict(formula_of(work, node as u8), header.relations, schema))
}
