// A whole column, from the columns of the operands (FORMAT 3.11).
ghost use Rattle.std.specs.Prelude.{◌≡◌, ◌≤◌, ◌<◌};
ghost use Rattle.column.specs.Steps.{renaming_step};
ghost use Rattle.column.specs.Column.{relation_column, unary_column, combined_column};

use crate::steps::{
    Bytes, Combination, Unary, combined_bytes, introducing_step, projecting_out_step, unary_bytes,
};
use crate::tables::{member_map, subset_byte};

// A relation's column, where there are `count` subsets.
pub fn relation_column(count: usize, r: u8) -> [u8; 64]
    requires { (count ≤ 256) × (r < 8) }
    ensures { result ≡ relation_column count r }
{
    let members = member_map(r);
    let mut column = [0u8; 64];
    for j in 0..32u8 {
        let i = j as usize;
        let allowed = subset_byte(count, j);
        column[i] = allowed;
        column[32 + i] = allowed & members[i];
    }
    column
}

// The column of an operator of one operand, by its step.
pub fn unary_column(u: Unary, operand: [u8; 64]) -> [u8; 64]
    ensures { result ≡ unary_column u operand }
{
    let mut column = [0u8; 64];
    for j in 0..32 {
        let bytes = unary_bytes(u, operand[j], operand[32 + j]);
        column[j] = bytes.allowed;
        column[32 + j] = bytes.output;
    }
    column
}

// A renaming's column; `is_old`, `is_new`: the attribute is the old one, the new one.
pub fn renaming_column(is_old: bool, is_new: bool, operand: [u8; 64]) -> [u8; 64]
    ensures { result ≡ unary_column (renaming_step is_old is_new) operand }
{
    if is_new {
        return unary_column(introducing_step(is_old), operand);
    }
    unary_column(projecting_out_step(is_old), operand)
}

// The column of an operator of two operands, by its step.
pub fn combined_column(c: Combination, left: [u8; 64], right: [u8; 64]) -> [u8; 64]
    ensures { result ≡ combined_column c left right }
{
    let mut column = [0u8; 64];
    for j in 0..32 {
        let l = Bytes {
            allowed: left[j],
            output: left[32 + j],
        };
        let r = Bytes {
            allowed: right[j],
            output: right[32 + j],
        };
        let bytes = combined_bytes(c, l, r);
        column[j] = bytes.allowed;
        column[32 + j] = bytes.output;
    }
    column
}
