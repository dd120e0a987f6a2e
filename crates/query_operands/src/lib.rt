// Reading an operand of a query's text, and writing its nodes (FORMAT 11.1 to 11.6).
#![tactic(auto)]

mod faults;
mod operands;

pub use operands::{Operand, read_operand};
