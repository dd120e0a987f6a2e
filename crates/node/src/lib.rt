// Nodes of an expression (FORMAT 1.2 to 1.5), and the check of their bytes (FORMAT 8.3).
#![tactic(auto)]

mod checking;
mod nodes;

pub use checking::check_nodes;
pub use nodes::{
    BinaryOp, Decoding, Node, SetOp, binary_code, binary_operator, set_code, set_operator,
};
