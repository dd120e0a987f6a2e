// Entries of the membership table by a byte: chains of those with the same byte, and sorting by
// attribute and by subset.
#![tactic(auto)]

mod chains;
mod order;
mod sorting;

pub use order::rises;
pub use sorting::{sort_by_attribute, sort_by_subset};
