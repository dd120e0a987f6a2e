// The schema and the output record of a membership table that fits and leaves no relation empty.
#![tactic(auto)]

ghost use Rattle.std.specs.Prelude.{◌≡◌, ◌≤◌, ◌<◌, length};
ghost use Rattle.node_expression.specs.NodeExpression.{expression_at};
ghost use Rattle.apply_answer.specs.Apply.{table_applied, table_image, table_output};
ghost use Rattle.apply_answer.specs.ApplyLaws.{ReadSubsets, Filled};
ghost use Rattle.type_record.specs.Record.{output_size};
ghost use Rattle.schema.specs.Schema.{schema_size};

use accepted_file::AcceptedFile;
use apply_answer::Application;
use filled_schema::is_filled;
use fitting::{entries_allowed, list_output, output_map, specials_allowed};
use refusal::Refusal;
use schema::write_schema;
use special_maps::maps_from;
use stored_columns::formula_of;
use type_record::write_record;

// The table of an instantiation at a node whose formula stands in the work space. The output is what the bits of the
// formula say at the subsets.
pub fn apply_table(
    file: &AcceptedFile<'_>,
    node: u8,
    work: &[u8],
    subsets: &[u8],
    entries: &[u32],
    list: &mut [u32],
    schema: &mut [u8],
    out: &mut [u8],
) -> Result<Application, Refusal>
    requires node_lt_n { node < file.now.header.nodes }
    requires filled { Filled file.now.bytes.now file.now.header.relations node work.now }
    requires read_subsets { ReadSubsets subsets.now entries.now (length entries.now) }
    requires schema_size_in_bounds { (schema_size ≤ length schema.old) × (output_size ≤ length out.old) × (length entries.now ≤ length list.old) }
    ensures value { result ≡ table_applied file.now.header.relations (expression_at file.now.bytes.now node) subsets.now entries.now }
    ensures schema_after { schema.new ≡ table_image file.now.header.relations (expression_at file.now.bytes.now node) subsets.now entries.now schema.old }
    ensures out_after { out.new ≡ table_output file.now.header.relations (expression_at file.now.bytes.now node) subsets.now entries.now out.old }
{
    let formula = formula_of(work, node);
    if !entries_allowed(formula, entries) {
        return Err(Refusal::TypeVariable);
    }
    let allowed = specials_allowed(formula, subsets);
    let special = maps_from(subsets);
    let filled = is_filled(file.header.relations, &special, entries);
    if !allowed {
        return Err(Refusal::SpecialSubset);
    }
    if !filled {
        return Err(Refusal::EmptyImage);
    }
    let size = write_schema(schema, file.header.relations, &special, entries, list);
    let map = output_map(formula, subsets);
    let listed = list_output(formula, entries, list);
    Ok(Application {
        schema: size,
        output: write_record(out, map, &list[..listed]),
    })
}
