// Schemas: reading them into the membership table, and writing them from it.
#![tactic(auto)]

mod reading;
mod writing;

pub use reading::{SchemaTable, read_schema};
pub use writing::write_schema;

// FORMAT 9.9: the bytes of the longest schema, and the least length of a slice for one.
pub const SCHEMA_SIZE: usize = 4104;
