// What an operator makes of its operands' types, as sets in words of 64 bits.
#![tactic(auto)]

ghost use Rattle.std.specs.Prelude.{◌≡◌};
ghost use Rattle.type_sets.specs.Sets.{breaking, coming_out, lacking, without};

use node::BinaryOp;

// The attributes of a word that break the rule of an operator of two operands.
pub fn breaking(op: BinaryOp, x: u64, y: u64) -> u64
    ensures { result ≡ breaking op x y }
{
    match op {
        BinaryOp::Union => x ^ y,
        BinaryOp::Difference => x ^ y,
        BinaryOp::Join => 0,
        BinaryOp::Product => x & y,
    }
}

// The attributes of a word that come out of an operator of two operands.
pub fn coming_out(op: BinaryOp, x: u64, y: u64) -> u64
    ensures { result ≡ coming_out op x y }
{
    match op {
        BinaryOp::Union => x,
        BinaryOp::Difference => x,
        BinaryOp::Join => x | y,
        BinaryOp::Product => x | y,
    }
}

// What x lacks of s.
pub fn lacking(x: u64, s: u64) -> u64
    ensures { result ≡ lacking x s }
{
    (x | s) ^ x
}

// x without s.
pub fn without(x: u64, s: u64) -> u64
    ensures { result ≡ without x s }
{
    (x | s) ^ s
}
