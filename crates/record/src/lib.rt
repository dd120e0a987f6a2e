// Record: the part of a file that holds a node.
#![tactic(auto)]

ghost use Rattle.std.specs.Prelude.{◌≡◌};
ghost use Rattle.record.specs.Record.{place_of, placed_in, record_of};
ghost use Rattle.record.specs.RecordLaws.{Seeking};

use admission::ask;
use node_reader::size_of;

// A part of a file: its first byte and the number of its bytes.
#[derive(Clone, Copy)]
pub struct Place {
    pub start: usize,
    pub len: usize,
}

// Where a node's part lies, for operations to which none of 1 to 11 applies.
pub fn place_of(file: &[u8], node: usize) -> Place
    requires { Seeking file.now node 0 2 }
    ensures { result ≡ place_of file.now node }
{
    let mut at = 2;
    for k in 0..node {
        at += size_of(file[at]);
    }
    Place {
        start: at,
        len: size_of(file[at]),
    }
}

// Where the part that Record returns lies (FORMAT 7.5); it is empty and starts at 0 where 1 to 11 apply.
pub fn locate(file: &[u8], node: usize) -> Place
    ensures { result ≡ place_of file.now node }
{
    match ask(file, node) {
        Err(_) => Place { start: 0, len: 0 },
        Ok(_) => place_of(file, node),
    }
}

// Record (FORMAT 7.5): the part of the file that holds the node, or an empty part where 1 to 11 apply: its bytes, and
// where they lie, which is in the caller's file at the place that `locate` gives.
pub fn record(file: &[u8], node: usize) -> &[u8]
    ensures result_value { result.now ≡ record_of file.now node }
    ensures ref_ptr_value { result.ref_ptr ≡ placed_in file.entry.ref_ptr (place_of file.now node) }
{
    let place = locate(file, node);
    let start = place.start;
    let end = start + place.len;
    &file[start..end]
}
