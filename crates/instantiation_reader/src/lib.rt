// Reading an instantiation into the membership table.
#![tactic(auto)]

mod appending;
mod reading;

pub use reading::read_instantiation;
