// Readers of what stands between the operands of a query's text (FORMAT 11.2 to 11.4): signs, numbers, lists, prefixes.
#![tactic(auto)]

mod lists;
mod numbers;
mod places;
mod prefixes;
mod signs;

pub use numbers::is_digit;
pub use places::byte_at;
pub use prefixes::{PrefixReading, UnaryNode, prefix_at};
pub use signs::sign_at;
