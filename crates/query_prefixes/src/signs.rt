// The signs of pairs (FORMAT 11.2).
ghost use Rattle.std.specs.Prelude.{◌≡◌};
ghost use Rattle.query_language.specs.Parse.{sign_at};
ghost use Rattle.query_prefixes.specs.Answers.{sign_answer};

use crate::places::byte_at;
use node::BinaryOp;

// The operator of the sign at a place, if there is one.
pub fn sign_at(text: &[u8], at: usize) -> Option<BinaryOp>
    ensures { result ≡ sign_answer (sign_at text.now at) }
{
    match byte_at(text, at) {
        b'+' => Some(BinaryOp::Union),
        b'-' => Some(BinaryOp::Difference),
        b'*' => Some(BinaryOp::Join),
        b'#' => Some(BinaryOp::Product),
        _ => None,
    }
}
