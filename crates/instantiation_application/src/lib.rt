// An instantiation, as it stands in its bytes, applied at a node of an accepted file.
#![tactic(auto)]

ghost use Rattle.std.specs.Prelude.{◌≡◌, ◌≤◌, ◌<◌, ◌*◌, length};
ghost use Rattle.node_expression.specs.NodeExpression.{expression_at};
ghost use Rattle.membership.specs.Entries.{RoomFor};
ghost use Rattle.instantiation.specs.Instantiation.{instantiation_reading};
ghost use Rattle.apply_answer.specs.Apply.{read_applied, read_space, read_image, read_output};
ghost use Rattle.admission.specs.Admission.{formula_size};
ghost use Rattle.type_record.specs.Record.{output_size};
ghost use Rattle.schema.specs.Schema.{schema_size};

use accepted_file::AcceptedFile;
use apply_answer::Application;
use filling::fill;
use instantiation_reader::read_instantiation;
use refusal::Refusal;
use table_application::apply_table;

// The instantiation in these bytes at a node of an accepted file, with two slices for its entries.
pub fn apply_instantiation(
    file: &AcceptedFile<'_>,
    node: u8,
    bytes: &[u8],
    items: &mut [u32],
    spare: &mut [u32],
    work: &mut [u8],
    schema: &mut [u8],
    out: &mut [u8],
) -> Result<Application, Refusal>
    requires node_lt_n { (node < file.now.header.nodes) × (file.now.header.nodes * formula_size ≤ length work.old) }
    requires room_for { RoomFor (length bytes.now) items.old × RoomFor (length bytes.now) spare.old }
    requires schema_size_in_bounds { (schema_size ≤ length schema.old) × (output_size ≤ length out.old) }
    ensures value { result ≡ read_applied file.now.header.relations (expression_at file.now.bytes.now node) (instantiation_reading bytes.now) }
    ensures work_after { work.new ≡ read_space file.now.bytes.now file.now.header.relations file.now.header.nodes (instantiation_reading bytes.now).judgement work.old }
    ensures schema_after { schema.new ≡ read_image file.now.header.relations (expression_at file.now.bytes.now node) (instantiation_reading bytes.now) schema.old }
    ensures out_after { out.new ≡ read_output file.now.header.relations (expression_at file.now.bytes.now node) (instantiation_reading bytes.now) out.old }
{
    // By cases and not by `?`, so that a wrong answer can be tried in its place.
    let read = match read_instantiation(bytes, items, spare) {
        Ok(read) => read,
        Err(refusal) => return Err(refusal),
    };
    fill(file, work);
    let (subsets, count) = (read.subsets, read.count);
    apply_table(
        file,
        node,
        work,
        &subsets,
        &items[..count],
        spare,
        schema,
        out,
    )
}
