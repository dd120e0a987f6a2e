// A whole expression file, accepted or refused (FORMAT 1.1, 8.3).
ghost use Rattle.std.specs.Prelude.{◌≡◌, ◌≤◌, length, drop};
ghost use Rattle.expression_file.specs.ReadFile.{header, answer, collect, read_nodes, acceptance};

use node::check_nodes;
use refusal::Refusal;

// The two counts of a file (FORMAT 1.1).
#[derive(Clone, Copy)]
pub struct Header {
    // m
    pub relations: u8,
    // n
    pub nodes: u8,
}

// The two counts alone: refusals 1 to 3.
fn read_header(file: &[u8]) -> Result<Header, Refusal>
    ensures { result ≡ header file.now }
{
    if file.len() < 2 {
        return Err(Refusal::HeaderTruncated);
    }
    let relations = file[0];
    if !bits::in_range(1, 8, relations) {
        return Err(Refusal::RelationCount);
    }
    let nodes = file[1];
    if !bits::in_range(1, 64, nodes) {
        return Err(Refusal::NodeCount);
    }
    Ok(Header { relations, nodes })
}

// The nodes after the counts, and that nothing follows them: refusals 4 to 10.
fn accept_nodes(file: &[u8], header: Header) -> Result<Header, Refusal>
    requires { 2 ≤ length file.now }
    ensures { result ≡ answer (collect header.relations header.nodes (read_nodes header.relations header.nodes 0 (drop 2 file.now))) }
{
    let size = check_nodes(header.relations, 0, header.nodes, &file[2..])?;
    if 2 + size < file.len() {
        return Err(Refusal::NodesFollowed);
    }
    Ok(header)
}

// Accept (FORMAT 7.3): the file's own bytes, refusals 1 to 10.
pub fn accept(file: &[u8]) -> Result<Header, Refusal>
    ensures { result ≡ acceptance file.now }
{
    let header = read_header(file)?;
    accept_nodes(file, header)
}
