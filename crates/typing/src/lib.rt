// Typing (FORMAT 7.9): whether a schema types a node, and the output record.
#![tactic(auto)]

ghost use Rattle.std.specs.Prelude.{◌≡◌, ◌≤◌, ◌<◌, ◌/◌, min, length};
ghost use Rattle.node_expression.specs.NodeExpression.{expression_at};
ghost use Rattle.membership.specs.Entries.{RoomFor, SpareFor};
ghost use Rattle.filled_schema.specs.FilledSchema.{filled_reading};
ghost use Rattle.typing_answer.specs.Typing.{schema_answer, schema_out, typing_answer, typing_out};
ghost use Rattle.type_record.specs.Record.{output_size};

use accepted_file::AcceptedFile;
use admission::{ask, with_slice};
use filled_schema::read_filled_schema;
use refusal::Refusal;
use table_typing::type_table;
use type_record::OUTPUT_SIZE;

// A node of an accepted file under the schema in these bytes, with two slices for its entries.
fn type_schema(
    file: &AcceptedFile<'_>,
    node: u8,
    bytes: &[u8],
    items: &mut [u32],
    spare: &mut [u32],
    out: &mut [u8],
) -> Result<Option<usize>, Refusal>
    requires node_lt_n { (node < file.now.header.nodes) × (output_size ≤ length out.old) }
    requires room_for { RoomFor (length bytes.now) items.old × SpareFor (length bytes.now) spare.old }
    ensures value { result ≡ schema_answer (expression_at file.now.bytes.now node) (filled_reading file.now.header.relations bytes.now) }
    ensures out_after { out.new ≡ schema_out (expression_at file.now.bytes.now node) (filled_reading file.now.header.relations bytes.now) out.old }
{
    let schema = read_filled_schema(bytes, file.header.relations, items, spare)?;
    let (special, count) = (schema.special, schema.count);
    Ok(type_table(file, node, &special, &items[..count], spare, out))
}

// The same with room for N entries, and for M in the spare slice.
fn type_with<const N: usize, const M: usize>(
    file: &AcceptedFile<'_>,
    node: u8,
    bytes: &[u8],
    out: &mut [u8],
) -> Result<Option<usize>, Refusal>
    requires node_lt_n { (node < file.now.header.nodes) × (output_size ≤ length out.old) }
    requires room { (min 256 (length bytes.now / 2) ≤ N) × (min 511 (length bytes.now / 2) ≤ M) }
    requires size { (N ≤ 256) × (M ≤ 512) }
    ensures value { result ≡ schema_answer (expression_at file.now.bytes.now node) (filled_reading file.now.header.relations bytes.now) }
    ensures out_after { out.new ≡ schema_out (expression_at file.now.bytes.now node) (filled_reading file.now.header.relations bytes.now) out.old }
{
    let mut items = [0u32; N];
    let mut spare = [0u32; M];
    type_schema(file, node, bytes, &mut items, &mut spare, out)
}

// The same with room for as many entries as the bytes can list.
fn type_sized(
    file: &AcceptedFile<'_>,
    node: u8,
    bytes: &[u8],
    out: &mut [u8],
) -> Result<Option<usize>, Refusal>
    requires node_lt_n { (node < file.now.header.nodes) × (output_size ≤ length out.old) }
    ensures value { result ≡ schema_answer (expression_at file.now.bytes.now node) (filled_reading file.now.header.relations bytes.now) }
    ensures out_after { out.new ≡ schema_out (expression_at file.now.bytes.now node) (filled_reading file.now.header.relations bytes.now) out.old }
{
    if bytes.len() <= 64 {
        return type_with::<32, 32>(file, node, bytes, out);
    }
    if bytes.len() <= 256 {
        return type_with::<128, 128>(file, node, bytes, out);
    }
    type_with::<256, 512>(file, node, bytes, out)
}

// Typing (FORMAT 7.9, 8.5): the length of the output record where the schema types the node, or the first refusal of 1 to
// 11, 13, 14 to 18, 25.
pub fn typing(
    file: &[u8],
    node: usize,
    schema: &[u8],
    out: &mut [u8],
) -> Result<Option<usize>, Refusal>
    ensures value { result ≡ typing_answer file.now node schema.now (length out.old) }
    ensures out_after { out.new ≡ typing_out file.now node schema.now out.old }
{
    let header = with_slice(ask(file, node), out.len(), OUTPUT_SIZE)?;
    let accepted = AcceptedFile {
        bytes: file,
        header,
    };
    type_sized(&accepted, node as u8, schema, out)
}
