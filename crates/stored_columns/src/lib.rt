// Columns in the work space, read and written; and those of a relation, which are all the same.
#![tactic(auto)]

mod relation;
mod storage;

pub use relation::fill_relation;
pub use storage::{column_of, formula_of, read_column, write_column};
