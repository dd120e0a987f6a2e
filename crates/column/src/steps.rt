// One byte of a plane, eight subsets at a time: what an operator makes of its operands' bytes (FORMAT 3.11, 3.13).
ghost use Rattle.std.specs.Prelude.{◌≡◌, not, ◌&&◌, ℕ, ◌<◌};
ghost use Rattle.bits.specs.Bit.{bit, differs};
ghost use Rattle.bits.specs.Pack.{pack};
ghost use Rattle.column.specs.Steps.{set_step, projecting_out_step, introducing_step, unary_allowed, unary_output};
ghost use Rattle.column.specs.StepLaws.{MadeBy};

use node::SetOp;

// What an operator of one operand does to one attribute (FORMAT 3.11).
#[derive(Clone, Copy)]
pub enum Unary {
    // nothing
    Kept,
    // the operand must have it, and so does the result
    Required,
    // the operand must have it, the result lacks it
    Removed,
    // the operand must lack it, the result has it
    Introduced,
    // the result lacks it
    Dropped,
    // the operand must have it and must lack it
    Contradicted,
}

// `named`: the set has the attribute.
pub fn set_step(op: SetOp, named: bool) -> Unary
    ensures { result ≡ set_step op named }
{
    if named {
        return Unary::Required;
    }
    match op {
        SetOp::Selection => Unary::Kept,
        SetOp::Projection => Unary::Dropped,
    }
}

// `is_old`: the attribute is the old one.
pub fn projecting_out_step(is_old: bool) -> Unary
    ensures { result ≡ projecting_out_step is_old }
{
    if is_old {
        return Unary::Removed;
    }
    Unary::Kept
}

// A renaming's step on the new attribute; on another one it is that of projecting out the old one.
pub fn introducing_step(is_old: bool) -> Unary
    ensures { result ≡ introducing_step is_old }
{
    if is_old {
        return Unary::Contradicted;
    }
    Unary::Introduced
}

// What an operator of two operands does to one attribute (FORMAT 3.11): the result has it where an operand does.
#[derive(Clone, Copy)]
pub enum Combination {
    // both operands or neither must have it
    Agreeing,
    // nothing is asked
    Merging,
    // one of them must lack it
    Disjoint,
}

// A byte of allowed bits and the byte of output bits that goes with it.
#[derive(Clone, Copy)]
pub struct Bytes {
    pub allowed: u8,
    pub output: u8,
}

// What an operator of one operand makes of its operand's bytes.
pub fn unary_bytes(u: Unary, allowed: u8, output: u8) -> Bytes
    ensures allowed_value { result.allowed ≡ pack 8 (λ i. unary_allowed u (bit allowed i) (bit output i)) }
    ensures output_value { result.output ≡ pack 8 (λ i. unary_output u (bit allowed i) (bit output i)) }
{
    match u {
        Unary::Kept => Bytes { allowed, output },
        Unary::Required => Bytes {
            allowed: allowed & output,
            output: allowed & output,
        },
        Unary::Removed => Bytes {
            allowed: allowed & output,
            output: 0,
        },
        Unary::Introduced => Bytes {
            allowed: allowed & !output,
            output: allowed & !output,
        },
        Unary::Dropped => Bytes { allowed, output: 0 },
        Unary::Contradicted => Bytes {
            allowed: 0,
            output: 0,
        },
    }
}

// The agreement of two operands (FORMAT 3.13), the step of union and difference, for any four bytes: at each bit allowed
// where both operands allow and their outputs agree, output where that and the left output stand.
pub fn agreeing_bytes(left: Bytes, right: Bytes) -> Bytes
    ensures by_index { (i : ℕ) → i < 8 → bit result.allowed i ≡ bit left.allowed i && bit right.allowed i && not (differs (bit left.output i) (bit right.output i)) }
    ensures by_index_2 { (i : ℕ) → i < 8 → bit result.output i ≡ bit result.allowed i && bit left.output i }
{
    let both = left.allowed & right.allowed;
    let allowed = both & !(left.output ^ right.output);
    Bytes {
        allowed,
        output: allowed & left.output,
    }
}

// What an operator of two operands makes of its operands' bytes.
pub fn combined_bytes(c: Combination, left: Bytes, right: Bytes) -> Bytes
    ensures { MadeBy c left.allowed left.output right.allowed right.output result.allowed result.output }
{
    let both = left.allowed & right.allowed;
    match c {
        Combination::Agreeing => agreeing_bytes(left, right),
        Combination::Merging => Bytes {
            allowed: both,
            output: both & (left.output | right.output),
        },
        Combination::Disjoint => {
            let allowed = both & !(left.output & right.output);
            Bytes {
                allowed,
                output: allowed & (left.output | right.output),
            }
        }
    }
}
