// The operations for callers in C and Rust (FORMAT 7.18, 7.19): numbers and byte slices only. A `&[u8]` is a
// pointer and then a length.
#![tactic(auto)]

mod edits;
mod formulas;
mod instantiations;
mod queries;
mod schemas;

ghost use Rattle.std.specs.Prelude.{◌≡◌, length};
ghost use Rattle.node.specs.ReadNode.{read_node};
ghost use Rattle.expression_file.specs.ReadFile.{acceptance};
ghost use Rattle.record.specs.Record.{place_of, record_of};
ghost use Rattle.expression_file.specs.Numbers.{acceptance_number, relations_or, nodes_or};
ghost use Rattle.node_word.specs.NodeWord.{reading_number};

use answer_numbers::write_acceptance;

// Accept (FORMAT 7.3): 0 with the counts m and n written, or the number of the first refusal of 1 to
// 10 with nothing written.
#[unsafe(no_mangle)]
pub extern "C" fn type_formula_accept(file: &[u8], relations: &mut u8, nodes: &mut u8) -> u8
    ensures value { result ≡ acceptance_number (acceptance file.now) }
    ensures relations_after { relations.new ≡ relations_or (acceptance file.now) relations.old }
    ensures nodes_after { nodes.new ≡ nodes_or (acceptance file.now) nodes.old }
{
    write_acceptance(expression_file::accept(file), relations, nodes)
}

// Record (FORMAT 7.5, 7.19): the length of the part of the file that holds the node, and where it starts; both 0
// where one of 1 to 11 applies.
#[unsafe(no_mangle)]
pub extern "C" fn type_formula_record(file: &[u8], node: usize, start: &mut usize) -> usize
    ensures value { result ≡ length (record_of file.now node) }
    ensures start_after { start.new ≡ (place_of file.now node).start }
{
    let place = record::locate(file, node);
    *start = place.start;
    place.len
}

// One node off the front of the bytes (FORMAT 7.4, 7.19), as eight bytes, low first: the refusal's number alone; or 0,
// the number of bytes that the node takes, its map, and its fields in bit order.
#[unsafe(no_mangle)]
pub extern "C" fn type_formula_read_node(relations: u8, number: u8, bytes: &[u8]) -> u64
    ensures { result ≡ reading_number (read_node relations number bytes.now) }
{
    match node_reader::read_node(relations, number, bytes) {
        Ok(decoding) => node_word::read_word(decoding.node, (decoding.size % 256) as u8),
        Err(r) => r.number() as u64,
    }
}
