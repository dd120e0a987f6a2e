// Apply and Recover for callers in C and Rust.
ghost use Rattle.std.specs.Prelude.{◌≡◌, length};
ghost use Rattle.apply_answer.specs.Apply.{apply_answer, apply_space, apply_schema, apply_out};
ghost use Rattle.recover_answer.specs.Recover.{recover_answer, recover_space, recover_out};
ghost use Rattle.apply_answer.specs.Numbers.{application_number, application_schema, application_output};
ghost use Rattle.recover_answer.specs.Numbers.{recovery_number, recovery_value};

use answer_numbers::{write_application, write_recovery};

// Apply (FORMAT 7.10): 0 with the numbers of bytes written to the schema and the output slice, or the number of the
// first refusal with both numbers as they were.
#[unsafe(no_mangle)]
pub extern "C" fn type_formula_apply(
    file: &[u8],
    node: usize,
    instantiation: &[u8],
    work: &mut [u8],
    schema: &mut [u8],
    out: &mut [u8],
    size: &mut usize,
    width: &mut usize,
) -> u8
    ensures value { result ≡ application_number (apply_answer file.now node instantiation.now (length work.old) (length schema.old) (length out.old)) }
    ensures work_after { work.new ≡ apply_space file.now node instantiation.now work.old (length schema.old) (length out.old) }
    ensures schema_after { schema.new ≡ apply_schema file.now node instantiation.now (length work.old) schema.old (length out.old) }
    ensures out_after { out.new ≡ apply_out file.now node instantiation.now (length work.old) (length schema.old) out.old }
    ensures size_after { size.new ≡ application_schema (apply_answer file.now node instantiation.now (length work.old) (length schema.old) (length out.old)) size.old }
    ensures width_after { width.new ≡ application_output (apply_answer file.now node instantiation.now (length work.old) (length schema.old) (length out.old)) width.old }
{
    write_application(
        apply::apply(file, node, instantiation, work, schema, out),
        size,
        width,
    )
}

// Recover (FORMAT 7.11): 0 with the number of bytes written to the instantiation slice, or 255 for untyped, or the
// number of the first refusal; after untyped and after a refusal `value` is as it was.
#[unsafe(no_mangle)]
pub extern "C" fn type_formula_recover(
    file: &[u8],
    node: usize,
    schema: &[u8],
    work: &mut [u8],
    instantiation: &mut [u8],
    value: &mut usize,
) -> u8
    ensures value { result ≡ recovery_number (recover_answer file.now node schema.now (length work.old) (length instantiation.old)) }
    ensures work_after { work.new ≡ recover_space file.now node schema.now work.old (length instantiation.old) }
    ensures instantiation_after { instantiation.new ≡ recover_out file.now node schema.now (length work.old) instantiation.old }
    ensures value_after { value.new ≡ recovery_value (recover_answer file.now node schema.now (length work.old) (length instantiation.old)) value.old }
{
    write_recovery(
        recover::recover(file, node, schema, work, instantiation),
        value,
    )
}
