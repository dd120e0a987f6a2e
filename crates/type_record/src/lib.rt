// Type records: reading and writing (FORMAT 4.1 to 4.5).
#![tactic(auto)]

mod lists;
mod records;
mod writing;

pub use lists::read_list;
pub use records::{RecordHead, read_record, record_size};
pub use writing::write_record;

// FORMAT 9.8: the bytes of the longest record, and the least length of a slice for one.
pub const OUTPUT_SIZE: usize = 513;
