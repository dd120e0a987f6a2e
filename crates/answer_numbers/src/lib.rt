// Each operation's answer as callers in C get it (FORMAT 7.18): a number, and values written where the caller asks.
#![tactic(auto)]

ghost use Rattle.std.specs.Prelude.{◌≡◌};
ghost use Rattle.expression_file.specs.Numbers.{acceptance_number, relations_or, nodes_or};
ghost use Rattle.verdict_answer.specs.Numbers.{outcome_number, outcome_value, outcome_memberships, typability_number, typability_attribute, typability_memberships};
ghost use Rattle.edit_answer.specs.Numbers.{editing_number, editing_size};
ghost use Rattle.typing_answer.specs.Numbers.{answer_number, answer_value};
ghost use Rattle.apply_answer.specs.Numbers.{application_number, application_schema, application_output};
ghost use Rattle.recover_answer.specs.Numbers.{recovery_number, recovery_value};
ghost use Rattle.query_answer.specs.Numbers.{parsing_number, parsing_size};

use apply_answer::Application;
use expression_file::Header;
use refusal::Refusal;
use verdict_answer::{Outcome, Typability};

// 0, or the refusal's number.
pub fn acceptance_number(acceptance: Result<Header, Refusal>) -> u8
    ensures { result ≡ acceptance_number acceptance }
{
    match acceptance {
        Ok(_) => 0,
        Err(r) => r.number(),
    }
}

// The same, with the counts m and n of an accepted file.
pub fn write_acceptance(
    acceptance: Result<Header, Refusal>,
    relations: &mut u8,
    nodes: &mut u8,
) -> u8
    ensures value { result ≡ acceptance_number acceptance }
    ensures relations_after { relations.new ≡ relations_or acceptance relations.old }
    ensures nodes_after { nodes.new ≡ nodes_or acceptance nodes.old }
{
    match acceptance {
        Ok(header) => {
            *relations = header.relations;
            *nodes = header.nodes;
            0
        }
        Err(r) => r.number(),
    }
}

// 0 with the witness's length and the number of its memberships, 255 with the attribute that is said of an untypable
// node, or the refusal's number.
pub fn write_outcome(
    outcome: Result<Outcome, Refusal>,
    value: &mut usize,
    memberships: &mut u8,
) -> u8
    ensures value { result ≡ outcome_number outcome }
    ensures value_after { value.new ≡ outcome_value outcome value.old }
    ensures memberships_after { memberships.new ≡ outcome_memberships outcome memberships.old }
{
    match outcome {
        Ok(Outcome::Typable(size, count)) => {
            *value = size;
            *memberships = count;
            0
        }
        Ok(Outcome::Untypable(a)) => {
            *value = a as usize;
            255 // Verdict: untypable
        }
        Err(r) => r.number(),
    }
}

// 0 with the output record's length, 255 for untyped, or the refusal's number.
pub fn write_answer(answer: Result<Option<usize>, Refusal>, value: &mut usize) -> u8
    ensures value { result ≡ answer_number answer }
    ensures value_after { value.new ≡ answer_value answer value.old }
{
    match answer {
        Ok(Some(size)) => {
            *value = size;
            0
        }
        Ok(None) => 255, // Typing: untyped
        Err(r) => r.number(),
    }
}

// 0 with the lengths of the schema and of the output record, or the refusal's number.
pub fn write_application(
    application: Result<Application, Refusal>,
    size: &mut usize,
    width: &mut usize,
) -> u8
    ensures value { result ≡ application_number application }
    ensures size_after { size.new ≡ application_schema application size.old }
    ensures width_after { width.new ≡ application_output application width.old }
{
    match application {
        Ok(lengths) => {
            *size = lengths.schema;
            *width = lengths.output;
            0
        }
        Err(r) => r.number(),
    }
}

// 0 with the instantiation's length, 255 for untyped, or the refusal's number.
pub fn write_recovery(recovery: Result<Option<usize>, Refusal>, value: &mut usize) -> u8
    ensures value { result ≡ recovery_number recovery }
    ensures value_after { value.new ≡ recovery_value recovery value.old }
{
    match recovery {
        Ok(Some(size)) => {
            *value = size;
            0
        }
        Ok(None) => 255, // Recover: untyped
        Err(r) => r.number(),
    }
}

// 0 with the expression file's length, or the refusal's number.
pub fn write_parsing(parsing: Result<usize, Refusal>, size: &mut usize) -> u8
    ensures value { result ≡ parsing_number parsing }
    ensures size_after { size.new ≡ parsing_size parsing size.old }
{
    match parsing {
        Ok(length) => {
            *size = length;
            0
        }
        Err(r) => r.number(),
    }
}

// 0 with the edited file's length, or the refusal's number.
pub fn write_editing(editing: Result<usize, Refusal>, size: &mut usize) -> u8
    ensures value { result ≡ editing_number editing }
    ensures size_after { size.new ≡ editing_size editing size.old }
{
    match editing {
        Ok(written) => {
            *size = written;
            0
        }
        Err(r) => r.number(),
    }
}

// 0 with the number of memberships, 255 with the attribute that is said of an untypable node, or the refusal's number.
pub fn write_typability(
    typability: Result<Typability, Refusal>,
    attribute: &mut u8,
    memberships: &mut u8,
) -> u8
    ensures value { result ≡ typability_number typability }
    ensures attribute_after { attribute.new ≡ typability_attribute typability attribute.old }
    ensures memberships_after { memberships.new ≡ typability_memberships typability memberships.old }
{
    match typability {
        Ok(Typability::Typable(fewest)) => {
            *memberships = fewest;
            0
        }
        Ok(Typability::Untypable(a)) => {
            *attribute = a;
            255 // Preview: untypable
        }
        Err(r) => r.number(),
    }
}
