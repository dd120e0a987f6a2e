// The table of costs: what it costs to fill each set of relations, off the work space (FORMAT 7.26).
#![tactic(auto)]

mod alike;
mod table;

pub use table::{all_relations, fill_costs, row_width, subset_count};
