// Rows of costs, and the lowest subset that costs no more than it must (FORMAT 7.26).
#![tactic(auto)]

mod low;
mod picking;
mod rows;

pub use picking::pick;
pub use rows::cost_row;
