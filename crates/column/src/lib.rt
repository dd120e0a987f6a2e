// A column of a formula, and what an operator makes of its operands' columns, eight subsets at a
// time (FORMAT 3.5, 3.11).
#![tactic(auto)]

mod columns;
mod steps;
mod subsets;
mod tables;

pub use columns::{combined_column, relation_column, renaming_column, unary_column};
pub use steps::{
    Bytes, Combination, Unary, agreeing_bytes, combined_bytes, projecting_out_step, set_step,
    unary_bytes,
};
pub use subsets::{allowed_in, output_digit, output_in};
