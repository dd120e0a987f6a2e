// An expression file that was accepted, with its counts.
#![tactic(auto)]

ghost use Rattle.std.specs.Prelude.{◌≡◌};
ghost use Rattle.expression_file.specs.ReadFile.{acceptance};
ghost use Rattle.expression_file.specs.ReadFile.{Accepted};

use expression_file::Header;

// The bytes of a file to which none of the refusals 1 to 10 applies, and its m and n (FORMAT 7.3).
#[derive(Clone, Copy)]
pub struct AcceptedFile<'a> {
    pub bytes: &'a [u8],
    pub header: Header,
    pub ghost accepted: { acceptance bytes.now ≡ Accepted header.relations header.nodes },
}
