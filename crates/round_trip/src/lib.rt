// Apply, and then Recover on the bytes just written (FORMAT 7.12). In specs/: the second half of demand 2,
// and the link to demand 3.
#![tactic(auto)]

ghost use Rattle.std.specs.Prelude.{◌≡◌, length};
ghost use Rattle.apply_answer.specs.Apply.{apply_answer, apply_schema, apply_out};
ghost use Rattle.round_trip.specs.Composed.{unless_short, round_trip, round_trip_space, round_trip_out};

use apply::apply;
use instantiation::INSTANTIATION_SIZE;
use recover::recover;
use refusal::Refusal;

// Apply, then Recover (FORMAT 7.12): applies an instantiation and recovers it from the schema that was written: the
// same bytes, where nothing is refused.
pub fn apply_and_recover(
    file: &[u8],
    node: usize,
    instantiation: &[u8],
    work: &mut [u8],
    schema: &mut [u8],
    out: &mut [u8],
    recovered: &mut [u8],
) -> Result<Option<usize>, Refusal>
    ensures value { result ≡ round_trip (apply_answer file.now node instantiation.now (length work.old) (length schema.old) (length out.old)) (length instantiation.now) (length recovered.old) }
    ensures work_after { work.new ≡ round_trip_space file.now node instantiation.now work.old (length schema.old) (length out.old) (length recovered.old) }
    ensures schema_after { schema.new ≡ unless_short (length recovered.old) schema.old (apply_schema file.now node instantiation.now (length work.old) schema.old (length out.old)) }
    ensures out_after { out.new ≡ unless_short (length recovered.old) out.old (apply_out file.now node instantiation.now (length work.old) (length schema.old) out.old) }
    ensures recovered_after { recovered.new ≡ round_trip_out (apply_answer file.now node instantiation.now (length work.old) (length schema.old) (length out.old)) instantiation.now recovered.old }
{
    if recovered.len() < INSTANTIATION_SIZE {
        return Err(Refusal::ResultSlice);
    }
    let applied = apply(file, node, instantiation, work, schema, out)?;
    recover(file, node, &schema[..applied.schema], work, recovered)
}
