// Formula and Verdict for callers in C and Rust.
ghost use Rattle.std.specs.Prelude.{◌≡◌, length};
ghost use Rattle.stored_formula.specs.Formula.{formula_answer, formula_space};
ghost use Rattle.verdict_answer.specs.Verdict.{verdict_answer, verdict_space, verdict_schema};
ghost use Rattle.expression_file.specs.Numbers.{acceptance_number};
ghost use Rattle.verdict_answer.specs.Numbers.{outcome_number, outcome_value, outcome_memberships};

use answer_numbers::{acceptance_number, write_outcome};

// Formula (FORMAT 7.6): 0, or the number of the first refusal of 1 to 10 and 12.
#[unsafe(no_mangle)]
pub extern "C" fn type_formula_formula(file: &[u8], work: &mut [u8]) -> u8
    ensures value { result ≡ acceptance_number (formula_answer file.now (length work.old)) }
    ensures work_after { work.new ≡ formula_space file.now work.old }
{
    acceptance_number(formula::formula(file, work))
}

// Verdict (FORMAT 7.7): 0 with the number of bytes written to the schema slice and that of their memberships; or 255
// with the lowest special attribute whose column allows nothing, or with 0 where each allows something but the
// relations cannot all be filled; or the number of the first refusal of 1 to 13. A number that the answer does not have
// stays as it was.
#[unsafe(no_mangle)]
pub extern "C" fn type_formula_verdict(
    file: &[u8],
    node: usize,
    work: &mut [u8],
    schema: &mut [u8],
    value: &mut usize,
    memberships: &mut u8,
) -> u8
    ensures value { result ≡ outcome_number (verdict_answer file.now node (length work.old) (length schema.old)) }
    ensures work_after { work.new ≡ verdict_space file.now node work.old (length schema.old) }
    ensures schema_after { schema.new ≡ verdict_schema file.now node (length work.old) schema.old }
    ensures value_after { value.new ≡ outcome_value (verdict_answer file.now node (length work.old) (length schema.old)) value.old }
    ensures memberships_after { memberships.new ≡ outcome_memberships (verdict_answer file.now node (length work.old) (length schema.old)) memberships.old }
{
    write_outcome(
        verdict::verdict(file, node, work, schema),
        value,
        memberships,
    )
}
