// Entering a list of attributes into the membership table in place.
#![tactic(auto)]

mod entering;
mod merging;

pub use entering::enter;
