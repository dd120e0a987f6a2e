// Formula: the formulas of all nodes of a file, in the work space.
#![tactic(auto)]

ghost use Rattle.std.specs.Prelude.{◌≡◌, length};
ghost use Rattle.stored_formula.specs.Formula.{formula_answer, formula_space};

use accepted_file::AcceptedFile;
use admission::with_space;
use expression_file::{Header, accept};
use filling::fill;
use refusal::Refusal;

// Formula (FORMAT 7.6), or the first refusal of 1 to 10 and 12; fills the first 1,024 n bytes of the work space, whatever
// they held.
pub fn formula(file: &[u8], work: &mut [u8]) -> Result<Header, Refusal>
    ensures value { result ≡ formula_answer file.now (length work.old) }
    ensures work_after { work.new ≡ formula_space file.now work.old }
{
    let header = with_space(accept(file), work.len())?;
    let accepted = AcceptedFile {
        bytes: file,
        header,
    };
    fill(&accepted, work);
    Ok(header)
}
