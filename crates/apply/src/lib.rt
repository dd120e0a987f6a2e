// Apply (FORMAT 7.10).
#![tactic(auto)]

ghost use Rattle.std.specs.Prelude.{◌≡◌, ◌≤◌, ◌<◌, ◌*◌, ◌/◌, min, length};
ghost use Rattle.node_expression.specs.NodeExpression.{expression_at};
ghost use Rattle.instantiation.specs.Instantiation.{instantiation_reading};
ghost use Rattle.apply_answer.specs.Apply.{read_applied, read_space, read_image, read_output, apply_answer, apply_space, apply_schema, apply_out};
ghost use Rattle.admission.specs.Admission.{formula_size};
ghost use Rattle.type_record.specs.Record.{output_size};
ghost use Rattle.schema.specs.Schema.{schema_size};

use accepted_file::AcceptedFile;
use admission::{admit, with_slice};
use apply_answer::Application;
use instantiation_application::apply_instantiation;
use refusal::Refusal;
use schema::SCHEMA_SIZE;
use type_record::OUTPUT_SIZE;

// The instantiation in these bytes at a node of an accepted file, with room for N entries.
fn apply_with<const N: usize>(
    file: &AcceptedFile<'_>,
    node: u8,
    bytes: &[u8],
    work: &mut [u8],
    schema: &mut [u8],
    out: &mut [u8],
) -> Result<Application, Refusal>
    requires node_lt_n { (node < file.now.header.nodes) × (file.now.header.nodes * formula_size ≤ length work.old) }
    requires schema_size_in_bounds { (schema_size ≤ length schema.old) × (output_size ≤ length out.old) }
    requires room { min 256 (length bytes.now / 2) ≤ N }
    requires size { N ≤ 256 }
    ensures value { result ≡ read_applied file.now.header.relations (expression_at file.now.bytes.now node) (instantiation_reading bytes.now) }
    ensures work_after { work.new ≡ read_space file.now.bytes.now file.now.header.relations file.now.header.nodes (instantiation_reading bytes.now).judgement work.old }
    ensures schema_after { schema.new ≡ read_image file.now.header.relations (expression_at file.now.bytes.now node) (instantiation_reading bytes.now) schema.old }
    ensures out_after { out.new ≡ read_output file.now.header.relations (expression_at file.now.bytes.now node) (instantiation_reading bytes.now) out.old }
{
    let mut items = [0u32; N];
    let mut spare = [0u32; N];
    apply_instantiation(file, node, bytes, &mut items, &mut spare, work, schema, out)
}

// The same with room for as many entries as the bytes can list.
fn apply_sized(
    file: &AcceptedFile<'_>,
    node: u8,
    bytes: &[u8],
    work: &mut [u8],
    schema: &mut [u8],
    out: &mut [u8],
) -> Result<Application, Refusal>
    requires node_lt_n { (node < file.now.header.nodes) × (file.now.header.nodes * formula_size ≤ length work.old) }
    requires schema_size_in_bounds { (schema_size ≤ length schema.old) × (output_size ≤ length out.old) }
    ensures value { result ≡ read_applied file.now.header.relations (expression_at file.now.bytes.now node) (instantiation_reading bytes.now) }
    ensures work_after { work.new ≡ read_space file.now.bytes.now file.now.header.relations file.now.header.nodes (instantiation_reading bytes.now).judgement work.old }
    ensures schema_after { schema.new ≡ read_image file.now.header.relations (expression_at file.now.bytes.now node) (instantiation_reading bytes.now) schema.old }
    ensures out_after { out.new ≡ read_output file.now.header.relations (expression_at file.now.bytes.now node) (instantiation_reading bytes.now) out.old }
{
    if bytes.len() <= 64 {
        return apply_with::<32>(file, node, bytes, work, schema, out);
    }
    if bytes.len() <= 256 {
        return apply_with::<128>(file, node, bytes, work, schema, out);
    }
    apply_with::<256>(file, node, bytes, work, schema, out)
}

// Apply (FORMAT 7.10, 8.5), or the first refusal of 1 to 13, 14 to 17, 19, 18, 20, 21, 26.
pub fn apply(
    file: &[u8],
    node: usize,
    instantiation: &[u8],
    work: &mut [u8],
    schema: &mut [u8],
    out: &mut [u8],
) -> Result<Application, Refusal>
    ensures value { result ≡ apply_answer file.now node instantiation.now (length work.old) (length schema.old) (length out.old) }
    ensures work_after { work.new ≡ apply_space file.now node instantiation.now work.old (length schema.old) (length out.old) }
    ensures schema_after { schema.new ≡ apply_schema file.now node instantiation.now (length work.old) schema.old (length out.old) }
    ensures out_after { out.new ≡ apply_out file.now node instantiation.now (length work.old) (length schema.old) out.old }
{
    let admitted = with_slice(admit(file, node, work.len()), schema.len(), SCHEMA_SIZE);
    let header = with_slice(admitted, out.len(), OUTPUT_SIZE)?;
    let accepted = AcceptedFile {
        bytes: file,
        header,
    };
    apply_sized(&accepted, node as u8, instantiation, work, schema, out)
}
