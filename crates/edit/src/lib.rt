// Edit (FORMAT 7.27): a file with the record of one node exchanged.
#![tactic(auto)]

ghost use Rattle.std.specs.Prelude.{◌≡◌, ℕ, ◌≤◌, ◌<◌, length};
ghost use Rattle.text.specs.Put.{Wrote};
ghost use Rattle.expression_file.specs.Exchanged.{exchanged};
ghost use Rattle.record.specs.RecordLaws.{Seeking};
ghost use Rattle.expression_file.specs.ReadFile.{Accepted};
ghost use Rattle.edit_answer.specs.Edit.{check_record, recorded, edit_sliced, edit_answer, edit_result};

use admission::ask;
use expression_file::Header;
use node::check_nodes;
use record::place_of;
use refusal::Refusal;
use text::write_bytes;

// The check of a record as node `k` of a file with `m` relations (FORMAT 8.9): a node, and nothing after it.
fn check_record(m: u8, k: u8, replacement: &[u8]) -> Result<usize, Refusal>
    ensures { result ≡ check_record m k replacement.now }
{
    let size = check_nodes(m, k, 1, replacement)?;
    if size < replacement.len() {
        return Err(Refusal::NodesFollowed);
    }
    Ok(size)
}

// Writes the edited file (FORMAT 1.8) from the front of the slice, and gives its length.
pub fn write_exchanged(file: &[u8], node: usize, replacement: &[u8], to: &mut [u8]) -> usize
    requires seeking { Seeking file.now node 0 2 }
    requires replacement_in_bounds { length (exchanged file.now node replacement.now) ≤ length to.old }
    ensures { Wrote 0 (exchanged file.now node replacement.now) to.old to.new result }
{
    let place = place_of(file, node);
    let start = place.start;
    let rest = start + place.len;
    let at = write_bytes(to, 0, &file[..start]);
    let next = write_bytes(to, at, replacement);
    write_bytes(to, next, &file[rest..])
}

// One more test, 27: whether Edit's result slice has 322 bytes (FORMAT 8.5).
fn with_edit_slice(asked: Result<Header, Refusal>, size: usize) -> Result<Header, Refusal>
    ensures { result ≡ edit_sliced asked size }
{
    let header = asked?;
    if size < 322 {
        return Err(Refusal::EditSlice);
    }
    Ok(header)
}

// One more test, the last: whether the record is a node in the place of this one (FORMAT 8.9).
pub fn with_record(
    asked: Result<Header, Refusal>,
    node: usize,
    replacement: &[u8],
) -> Result<Header, Refusal>
    requires { (m n : ℕ) → asked ≡ Accepted m n → node < 64 }
    ensures { result ≡ recorded asked node replacement.now }
{
    let header = asked?;
    check_record(header.relations, node as u8, replacement)?;
    Ok(header)
}

// Edit (FORMAT 7.27): the length of the edited file, or the first refusal of 1 to 11, 27, and then of the record
// (FORMAT 8.9).
pub fn edit(file: &[u8], node: usize, replacement: &[u8], res: &mut [u8]) -> Result<usize, Refusal>
    ensures value { result ≡ edit_answer file.now node replacement.now (length res.old) }
    ensures res_after { res.new ≡ edit_result file.now node replacement.now res.old }
{
    let found = ask(file, node);
    with_record(with_edit_slice(found, res.len()), node, replacement)?;
    Ok(write_exchanged(file, node, replacement, res))
}
