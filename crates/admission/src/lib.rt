// The tests that operations share: the file, the node asked for, the work space, the result slices (refusals 1 to 13;
// FORMAT 8.5).
#![tactic(auto)]

ghost use Rattle.std.specs.Prelude.{◌≡◌};
ghost use Rattle.admission.specs.Admission.{asked, spaced, sliced, admitted};

use expression_file::{Header, accept};
use refusal::Refusal;

// The file and the node asked for: refusals 1 to 11 (FORMAT 8.5).
pub fn ask(file: &[u8], node: usize) -> Result<Header, Refusal>
    ensures { result ≡ asked file.now node }
{
    let header = accept(file)?;
    if header.nodes as usize <= node {
        return Err(Refusal::NodeNumber);
    }
    Ok(header)
}

// One more test, 12: whether the work space has so many bytes (FORMAT 8.5).
pub fn with_space(asked: Result<Header, Refusal>, space: usize) -> Result<Header, Refusal>
    ensures { result ≡ spaced asked space }
{
    let header = asked?;
    if space < header.nodes as usize * FORMULA_SIZE {
        return Err(Refusal::WorkSpace);
    }
    Ok(header)
}

// One more test, 13: whether a result slice has at least so many bytes (FORMAT 8.5).
pub fn with_slice(
    asked: Result<Header, Refusal>,
    size: usize,
    least: usize,
) -> Result<Header, Refusal>
    ensures { result ≡ sliced asked size least }
{
    let header = asked?;
    if size < least {
        return Err(Refusal::ResultSlice);
    }
    Ok(header)
}

// The file, the node asked for and the work space: refusals 1 to 12 (FORMAT 8.5).
pub fn admit(file: &[u8], node: usize, space: usize) -> Result<Header, Refusal>
    ensures { result ≡ admitted file.now node space }
{
    with_space(ask(file, node), space)
}

// FORMAT 9.6: the bytes of a node's formula: 16 columns.
pub const FORMULA_SIZE: usize = 1024;
