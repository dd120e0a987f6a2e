// Edit and Preview for callers in C and Rust.
ghost use Rattle.std.specs.Prelude.{◌≡◌, length};
ghost use Rattle.edit_answer.specs.Edit.{edit_answer, edit_result};
ghost use Rattle.edit_answer.specs.Numbers.{editing_number, editing_size};
ghost use Rattle.preview_answer.specs.Preview.{preview_answer, preview_space};
ghost use Rattle.verdict_answer.specs.Numbers.{typability_number, typability_attribute, typability_memberships};

use answer_numbers::{write_editing, write_typability};

// Edit (FORMAT 7.27): 0 with the number of bytes written to the result slice, or the number of the first refusal of 1 to
// 11, 27, and then 4 to 10 of the record, with everything as it was.
#[unsafe(no_mangle)]
pub extern "C" fn type_formula_edit(
    file: &[u8],
    node: usize,
    replacement: &[u8],
    res: &mut [u8],
    size: &mut usize,
) -> u8
    ensures value { result ≡ editing_number (edit_answer file.now node replacement.now (length res.old)) }
    ensures res_after { res.new ≡ edit_result file.now node replacement.now res.old }
    ensures size_after { size.new ≡ editing_size (edit_answer file.now node replacement.now (length res.old)) size.old }
{
    write_editing(edit::edit(file, node, replacement, res), size)
}

// Preview (FORMAT 7.28): 0 with the number of memberships, or 255 with the attribute as Verdict says it, both of the
// last node of the edited file; or the number of the first refusal of 1 to 12, and then 4 to 10 of the record, with
// everything as it was. A number that the answer does not have stays as it was.
#[unsafe(no_mangle)]
pub extern "C" fn type_formula_preview(
    file: &[u8],
    node: usize,
    replacement: &[u8],
    work: &mut [u8],
    attribute: &mut u8,
    memberships: &mut u8,
) -> u8
    ensures value { result ≡ typability_number (preview_answer file.now node replacement.now (length work.old)) }
    ensures work_after { work.new ≡ preview_space file.now node replacement.now work.old }
    ensures attribute_after { attribute.new ≡ typability_attribute (preview_answer file.now node replacement.now (length work.old)) attribute.old }
    ensures memberships_after { memberships.new ≡ typability_memberships (preview_answer file.now node replacement.now (length work.old)) memberships.old }
{
    write_typability(
        preview::preview(file, node, replacement, work),
        attribute,
        memberships,
    )
}
