// Nodes of an expression, operators by their codes (FORMAT 1.4), and what reading a node gives.
ghost use Rattle.std.specs.Prelude.{◌≡◌};
ghost use Rattle.node.specs.Operators.{binary_of, set_op_of, binary_code, set_code};

use attribute_set::AttrSet;

// The operators of map 14, with their codes (FORMAT 1.4).
#[derive(Clone, Copy)]
pub enum BinaryOp {
    Union = 1,
    Difference = 2,
    Join = 3,
    Product = 4,
}

// The operators of map 26, with their codes (FORMAT 1.4).
#[derive(Clone, Copy)]
pub enum SetOp {
    Selection = 5,
    Projection = 6,
}

// A node (FORMAT 1.4). An operand is the number of an earlier node.
#[derive(Clone, Copy)]
pub enum Node {
    // a relation, by its number
    Relation(u8),
    // an operator of the left and the right operand
    Binary(BinaryOp, u8, u8),
    // an operator of one operand and an attribute set
    WithSet(SetOp, u8, AttrSet),
    // the operand, then the old and the new attribute
    Renaming(u8, u8, u8),
    // the operand, then the attribute that goes
    ProjectingOut(u8, u8),
}

// The operator of a code of map 14, 1 to 4.
pub fn binary_operator(code: u8) -> BinaryOp
    ensures { result ≡ binary_of code }
{
    match code {
        1 => BinaryOp::Union,
        2 => BinaryOp::Difference,
        3 => BinaryOp::Join,
        _ => BinaryOp::Product,
    }
}

// The operator of a code of map 26, 5 or 6.
pub fn set_operator(code: u8) -> SetOp
    ensures { result ≡ set_op_of code }
{
    match code {
        5 => SetOp::Selection,
        _ => SetOp::Projection,
    }
}

// The code of an operator of map 14.
pub fn binary_code(op: BinaryOp) -> u8
    ensures { result ≡ binary_code op }
{
    op as u8
}

// The code of an operator of map 26.
pub fn set_code(op: SetOp) -> u8
    ensures { result ≡ set_code op }
{
    op as u8
}

// A node with the number of bytes that it takes.
#[derive(Clone, Copy)]
pub struct Decoding {
    pub node: Node,
    pub size: usize,
}
