// The listing of a query typed as text (FORMAT 7.24).
#![tactic(auto)]

ghost use Rattle.std.specs.Prelude.{◌≡◌, length};
ghost use Rattle.query_listing.specs.QueryListing.{query_listed_answer, query_listed_text, query_listed_space};

use listing::{write_listing, write_refused};
use query::parse_query;
use refusal::Refusal;

// Writes the text of the last node of a query over `m` relations to the front of `text`, or the line of its refusal: the
// length of this text, or the refusal of a slice that is too short.
pub fn write_query_listing(
    m: u8,
    query: &[u8],
    work: &mut [u8],
    text: &mut [u8],
) -> Result<usize, Refusal>
    ensures value { result ≡ query_listed_answer m query.now (length work.old) (length text.old) }
    ensures text_after { text.new ≡ query_listed_text m query.now (length work.old) text.old }
    ensures work_after { work.new ≡ query_listed_space m query.now work.old (length text.old) }
{
    if work.len() < 65536 {
        return Err(Refusal::WorkSpace);
    }
    if text.len() < 32768 {
        return Err(Refusal::ResultSlice);
    }
    let mut file = [0u8; 322];
    match parse_query(m, query, &mut file) {
        Ok(n) => write_listing(&file[..n], work, text),
        Err(refusal) => Ok(write_refused(text, refusal)),
    }
}
