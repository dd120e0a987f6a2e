// Recover (FORMAT 7.11).
#![tactic(auto)]

ghost use Rattle.std.specs.Prelude.{◌≡◌, ◌≤◌, ◌*◌, ◌<◌, ◌/◌, min, length};
ghost use Rattle.node_expression.specs.NodeExpression.{expression_at};
ghost use Rattle.membership.specs.Entries.{RoomFor, SpareFor};
ghost use Rattle.filled_schema.specs.FilledSchema.{filled_reading};
ghost use Rattle.apply_answer.specs.Apply.{read_space};
ghost use Rattle.recover_answer.specs.Recover.{read_recovered, read_instantiation, recover_answer, recover_space, recover_out};
ghost use Rattle.admission.specs.Admission.{formula_size};
ghost use Rattle.instantiation.specs.Instantiation.{instantiation_size};

use accepted_file::AcceptedFile;
use admission::{admit, with_slice};
use filled_schema::read_filled_schema;
use filling::fill;
use instantiation::INSTANTIATION_SIZE;
use refusal::Refusal;
use table_recovery::recover_table;

// The schema in these bytes at a node of an accepted file, with two slices for its entries.
fn recover_bytes(
    file: &AcceptedFile<'_>,
    node: u8,
    bytes: &[u8],
    items: &mut [u32],
    spare: &mut [u32],
    work: &mut [u8],
    out: &mut [u8],
) -> Result<Option<usize>, Refusal>
    requires node_lt_n { (node < file.now.header.nodes) × (file.now.header.nodes * formula_size ≤ length work.old) }
    requires room_for { RoomFor (length bytes.now) items.old × SpareFor (length bytes.now) spare.old }
    requires instantiation_size_in_bounds { instantiation_size ≤ length out.old }
    ensures value { result ≡ read_recovered file.now.header.relations (expression_at file.now.bytes.now node) (filled_reading file.now.header.relations bytes.now) }
    ensures work_after { work.new ≡ read_space file.now.bytes.now file.now.header.relations file.now.header.nodes (filled_reading file.now.header.relations bytes.now).judgement work.old }
    ensures out_after { out.new ≡ read_instantiation file.now.header.relations (expression_at file.now.bytes.now node) (filled_reading file.now.header.relations bytes.now) out.old }
{
    let read = read_filled_schema(bytes, file.header.relations, items, spare)?;
    let (special, count) = (read.special, read.count);
    fill(file, work);
    Ok(recover_table(
        work,
        node,
        &special,
        &items[..count],
        spare,
        out,
        file.bytes,
        file.header.relations,
    ))
}

// The same with room for N entries, and for M in the spare slice.
fn recover_with<const N: usize, const M: usize>(
    file: &AcceptedFile<'_>,
    node: u8,
    bytes: &[u8],
    work: &mut [u8],
    out: &mut [u8],
) -> Result<Option<usize>, Refusal>
    requires node_lt_n { (node < file.now.header.nodes) × (file.now.header.nodes * formula_size ≤ length work.old) }
    requires instantiation_size_in_bounds { instantiation_size ≤ length out.old }
    requires room { (min 256 (length bytes.now / 2) ≤ N) × (min 511 (length bytes.now / 2) ≤ M) }
    requires size { (N ≤ 256) × (M ≤ 512) }
    ensures value { result ≡ read_recovered file.now.header.relations (expression_at file.now.bytes.now node) (filled_reading file.now.header.relations bytes.now) }
    ensures work_after { work.new ≡ read_space file.now.bytes.now file.now.header.relations file.now.header.nodes (filled_reading file.now.header.relations bytes.now).judgement work.old }
    ensures out_after { out.new ≡ read_instantiation file.now.header.relations (expression_at file.now.bytes.now node) (filled_reading file.now.header.relations bytes.now) out.old }
{
    let mut items = [0u32; N];
    let mut spare = [0u32; M];
    recover_bytes(file, node, bytes, &mut items, &mut spare, work, out)
}

// The same with room for as many entries as the bytes can list.
fn recover_sized(
    file: &AcceptedFile<'_>,
    node: u8,
    bytes: &[u8],
    work: &mut [u8],
    out: &mut [u8],
) -> Result<Option<usize>, Refusal>
    requires node_lt_n { (node < file.now.header.nodes) × (file.now.header.nodes * formula_size ≤ length work.old) }
    requires instantiation_size_in_bounds { instantiation_size ≤ length out.old }
    ensures value { result ≡ read_recovered file.now.header.relations (expression_at file.now.bytes.now node) (filled_reading file.now.header.relations bytes.now) }
    ensures work_after { work.new ≡ read_space file.now.bytes.now file.now.header.relations file.now.header.nodes (filled_reading file.now.header.relations bytes.now).judgement work.old }
    ensures out_after { out.new ≡ read_instantiation file.now.header.relations (expression_at file.now.bytes.now node) (filled_reading file.now.header.relations bytes.now) out.old }
{
    if bytes.len() <= 64 {
        return recover_with::<32, 32>(file, node, bytes, work, out);
    }
    if bytes.len() <= 256 {
        return recover_with::<128, 128>(file, node, bytes, work, out);
    }
    recover_with::<256, 512>(file, node, bytes, work, out)
}

// Recover (FORMAT 7.11, 8.5): the length of the instantiation where the schema types the node, or the first refusal of 1
// to 13, 14 to 18, 25.
pub fn recover(
    file: &[u8],
    node: usize,
    schema: &[u8],
    work: &mut [u8],
    out: &mut [u8],
) -> Result<Option<usize>, Refusal>
    ensures value { result ≡ recover_answer file.now node schema.now (length work.old) (length out.old) }
    ensures work_after { work.new ≡ recover_space file.now node schema.now work.old (length out.old) }
    ensures out_after { out.new ≡ recover_out file.now node schema.now (length work.old) out.old }
{
    let header = with_slice(admit(file, node, work.len()), out.len(), INSTANTIATION_SIZE)?;
    let accepted = AcceptedFile {
        bytes: file,
        header,
    };
    recover_sized(&accepted, node as u8, schema, work, out)
}
