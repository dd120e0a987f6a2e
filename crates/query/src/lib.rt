// Parsing a query typed as text (FORMAT 7.23).
#![tactic(auto)]

ghost use Rattle.std.specs.Prelude.{◌≡◌, ◌∷◌, ◌+◌, ◌≤◌, length};
ghost use Rattle.text.specs.Put.{Wrote};
ghost use Rattle.query_answer.specs.ParseQuery.{parse_answer, parse_file};

use query_operands::read_operand;
use refusal::Refusal;
use text::Writer;

// The two counts and the bytes of the nodes, from the front of the slice (FORMAT 1.1).
fn write_file(file: &mut [u8], m: u8, n: u8, nodes: &[u8]) -> usize
    requires { 2 + length nodes.now ≤ length file.old }
    ensures { Wrote 0 (m ∷ n ∷ nodes.now) file.old file.new result }
{
    let mut writer = Writer::new(file);
    writer.write_byte(m);
    writer.write_byte(n);
    writer.write_bytes(nodes);
    writer.len()
}

// Parses a text as a query over `m` relations, and writes its expression file: 2, 13, 23, 22, 24, then 7 and 9, the
// leftmost first (FORMAT 8.8). The nodes are written aside first, since a refusal changes nothing.
pub fn parse_query(m: u8, text: &[u8], file: &mut [u8]) -> Result<usize, Refusal>
    ensures value { result ≡ parse_answer m text.now (length file.old) }
    ensures file_after { file.new ≡ parse_file m text.now file.old }
{
    if !bits::in_range(1, 8, m) {
        return Err(Refusal::RelationCount);
    }
    if file.len() < 322 {
        return Err(Refusal::ResultSlice);
    }
    if 512 < text.len() {
        return Err(Refusal::QueryLength);
    }
    let mut nodes = [0u8; 1029];
    let mut writer = Writer::new(&mut nodes);
    let operand = read_operand(text, m, 0, &mut writer, 0).ok_or(Refusal::QuerySyntax)?;
    if operand.next < text.len() {
        return Err(Refusal::QuerySyntax);
    }
    if 64 < operand.count {
        return Err(Refusal::QueryNodes);
    }
    if let Some(refusal) = operand.fault {
        return Err(refusal);
    }
    Ok(write_file(file, m, operand.count as u8, writer.written()))
}
