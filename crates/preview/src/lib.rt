// Preview (FORMAT 7.28): what the last node's verdict becomes if the record of one node is exchanged.
#![tactic(auto)]

ghost use Rattle.std.specs.Prelude.{◌≡◌, ◌*◌, ◌≤◌, length};
ghost use Rattle.bits.specs.Tab.{over};
ghost use Rattle.expression_file.specs.Exchanged.{exchanged};
ghost use Rattle.admission.specs.Admission.{formula_size};
ghost use Rattle.edit_answer.specs.EditLaws.{Exchanges};
ghost use Rattle.stored_formula.specs.FormulaBytes.{formulas_of};
ghost use Rattle.preview_answer.specs.Preview.{preview_answer, preview_space};

use accepted_file::AcceptedFile;
use admission::admit;
use edit::{with_record, write_exchanged};
use expression_file::Header;
use filling::fill;
use refusal::Refusal;
use stored_columns::formula_of;
use typability::typability;
use verdict_answer::Typability;

// The formulas of the edited file (FORMAT 1.8), which is written aside first.
fn fill_exchanged(file: &[u8], header: Header, node: usize, replacement: &[u8], work: &mut [u8])
    requires exchanges { Exchanges file.now node replacement.now header.relations header.nodes }
    requires formula_size_in_bounds { header.nodes * formula_size ≤ length work.old }
    ensures { work.new ≡ over (formulas_of (exchanged file.now node replacement.now) header.relations header.nodes) work.old }
{
    let mut edited = [0u8; 322];
    let size = write_exchanged(file, node, replacement, &mut edited);
    let accepted = AcceptedFile {
        bytes: &edited[..size],
        header,
    };
    fill(&accepted, work);
}

// Preview (FORMAT 7.28), or the first refusal of 1 to 12, and then of the record (FORMAT 8.9). The file is lent to be read
// alone.
pub fn preview(
    file: &[u8],
    node: usize,
    replacement: &[u8],
    work: &mut [u8],
) -> Result<Typability, Refusal>
    ensures value { result ≡ preview_answer file.now node replacement.now (length work.old) }
    ensures work_after { work.new ≡ preview_space file.now node replacement.now work.old }
{
    let header = with_record(admit(file, node, work.len()), node, replacement)?;
    fill_exchanged(file, header, node, replacement, work);
    let formula = formula_of(work, header.nodes - 1);
    Ok(typability(formula, header.relations))
}
