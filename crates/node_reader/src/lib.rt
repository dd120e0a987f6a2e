// One node, off the front of a part of the file: its decoding, and its check and decoding.
#![tactic(auto)]

mod decoding;
mod reading;

pub use decoding::{decode, size_of};
pub use reading::read_node;
