// Typing for callers in C and Rust.
ghost use Rattle.std.specs.Prelude.{◌≡◌, length};
ghost use Rattle.typing_answer.specs.Typing.{typing_answer, typing_out};
ghost use Rattle.typing_answer.specs.Numbers.{answer_number, answer_value};

use answer_numbers::write_answer;

// Typing (FORMAT 7.9): 0 with the number of bytes written to the result slice, or 255 for untyped, or the number of the
// first refusal of 1 to 11, 13, 14 to 18 and 25; after untyped and after a refusal `value` is as it was.
#[unsafe(no_mangle)]
pub extern "C" fn type_formula_typing(
    file: &[u8],
    node: usize,
    schema: &[u8],
    out: &mut [u8],
    value: &mut usize,
) -> u8
    ensures value { result ≡ answer_number (typing_answer file.now node schema.now (length out.old)) }
    ensures out_after { out.new ≡ typing_out file.now node schema.now out.old }
    ensures value_after { value.new ≡ answer_value (typing_answer file.now node schema.now (length out.old)) value.old }
{
    write_answer(typing::typing(file, node, schema, out), value)
}
