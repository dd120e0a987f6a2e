// The text of the last node of a file (FORMAT 7.15): verdict, relations, output and named attributes.
#![tactic(auto)]

ghost use Rattle.std.specs.Prelude.{◌≡◌, [], ◌∷◌, ◌++◌, ◌≤◌, length};
ghost use Rattle.refusal.specs.Number.{number_of};
ghost use Rattle.text.specs.Characters.{decimal, newline};
ghost use Rattle.text.specs.Put.{Wrote};
ghost use Rattle.listing.specs.Listing.{listed_answer, listed_text, listed_space};

use accepted_file::AcceptedFile;
use formula::formula;
use listing_entries::named_attributes;
use listing_lines::write_lines;
use refusal::Refusal;
use stored_columns::formula_of;
use text::Writer;

// The one line of a refused file, or of a refused query (FORMAT 7.17, 7.24).
pub fn write_refused(text: &mut [u8], refusal: Refusal) -> usize
    requires { 11 ≤ length text.old }
    ensures { Wrote 0 ((114 ∷ 101 ∷ 102 ∷ 117 ∷ 115 ∷ 101 ∷ 100 ∷ 32 ∷ []) ++ decimal (number_of refusal) ++ newline) text.old text.new result }
{
    let mut writer = Writer::new(text);
    writer.write_bytes(b"refused ");
    writer.write_decimal(refusal.number());
    writer.write_byte(b'\n');
    writer.len()
}

// Writes the text of the last node of the file to the front of `text` (FORMAT 7.13): the length of the text, or the
// refusal of a slice that is too short.
pub fn write_listing(file: &[u8], work: &mut [u8], text: &mut [u8]) -> Result<usize, Refusal>
    ensures value { result ≡ listed_answer file.now (length work.old) (length text.old) }
    ensures text_after { text.new ≡ listed_text file.now (length work.old) text.old }
    ensures work_after { work.new ≡ listed_space file.now work.old (length text.old) }
{
    if work.len() < 65536 {
        return Err(Refusal::WorkSpace);
    }
    if text.len() < 32768 {
        return Err(Refusal::ResultSlice);
    }
    match formula(file, work) {
        Ok(header) => {
            let accepted = AcceptedFile {
                bytes: file,
                header,
            };
            let named = named_attributes(&accepted);
            let node = header.nodes - 1;
            let last = formula_of(work, node);
            let mut writer = Writer::new(text);
            write_lines(&mut writer, last, header.relations, node, named);
            Ok(writer.len())
        }
        Err(refusal) => Ok(write_refused(text, refusal)),
    }
}
