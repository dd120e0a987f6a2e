// A node as a machine word, for callers in C and Rust (FORMAT 7.19).
#![tactic(auto)]

mod words;

pub use words::read_word;
