// The type of a node over a membership table, and its record.
#![tactic(auto)]

mod output;
mod tables;

pub use tables::type_table;
