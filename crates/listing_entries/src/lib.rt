// The attributes and subsets that a line of the listing names, as text.
#![tactic(auto)]

mod entries;
mod naming;

pub use entries::{Kind, write_list};
pub use naming::named_attributes;
