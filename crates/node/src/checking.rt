// The check of one node, off the front of a part of the file (FORMAT 8.3), and of several.
ghost use Rattle.std.specs.Prelude.{◌+◌, ◌≤◌, ◌≡◌};
ghost use Rattle.node.specs.ReadNode.{check_fields, check_node, check_nodes};

use attribute_set::is_special;
use refusal::Refusal;

// The fields of map 1.
fn check_relation(m: u8, bytes: &[u8]) -> Result<usize, Refusal>
    ensures { result ≡ check_fields m 0 1 bytes.now }
{
    if bytes.len() < 2 {
        return Err(Refusal::NodeTruncated);
    }
    if m <= bytes[1] {
        return Err(Refusal::RelationNumber);
    }
    Ok(2)
}

// The fields of map 14.
fn check_binary(k: u8, bytes: &[u8]) -> Result<usize, Refusal>
    ensures { result ≡ check_fields 0 k 14 bytes.now }
{
    if bytes.len() < 4 {
        return Err(Refusal::NodeTruncated);
    }
    if k <= bytes[1] {
        return Err(Refusal::Operand);
    }
    if k <= bytes[2] {
        return Err(Refusal::Operand);
    }
    if !bits::in_range(1, 4, bytes[3]) {
        return Err(Refusal::OperatorCode);
    }
    Ok(4)
}

// The fields of map 26.
fn check_with_set(k: u8, bytes: &[u8]) -> Result<usize, Refusal>
    ensures { result ≡ check_fields 0 k 26 bytes.now }
{
    if bytes.len() < 5 {
        return Err(Refusal::NodeTruncated);
    }
    if k <= bytes[1] {
        return Err(Refusal::Operand);
    }
    if !bits::in_range(5, 6, bytes[2]) {
        return Err(Refusal::OperatorCode);
    }
    if bytes[3] % 2 == 1 {
        return Err(Refusal::Attribute);
    }
    Ok(5)
}

// The fields of map 98.
fn check_renaming(k: u8, bytes: &[u8]) -> Result<usize, Refusal>
    ensures { result ≡ check_fields 0 k 98 bytes.now }
{
    if bytes.len() < 4 {
        return Err(Refusal::NodeTruncated);
    }
    if k <= bytes[1] {
        return Err(Refusal::Operand);
    }
    if !is_special(bytes[2]) {
        return Err(Refusal::Attribute);
    }
    if !is_special(bytes[3]) {
        return Err(Refusal::Attribute);
    }
    Ok(4)
}

// The fields of map 34.
fn check_projecting_out(k: u8, bytes: &[u8]) -> Result<usize, Refusal>
    ensures { result ≡ check_fields 0 k 34 bytes.now }
{
    if bytes.len() < 3 {
        return Err(Refusal::NodeTruncated);
    }
    if k <= bytes[1] {
        return Err(Refusal::Operand);
    }
    if !is_special(bytes[2]) {
        return Err(Refusal::Attribute);
    }
    Ok(3)
}

// The check of node `k` of a file with `m` relations, from the bytes that begin with it (FORMAT 8.3).
fn check_node(m: u8, k: u8, bytes: &[u8]) -> Result<usize, Refusal>
    ensures { result ≡ check_node m k bytes.now }
{
    if bytes.len() < 1 {
        return Err(Refusal::NodeTruncated);
    }
    let map = bytes[0];
    match map {
        1 => check_relation(m, bytes),
        14 => check_binary(k, bytes),
        26 => check_with_set(k, bytes),
        98 => check_renaming(k, bytes),
        34 => check_projecting_out(k, bytes),
        _ => Err(Refusal::NodeMap),
    }
}

// The check of `count` nodes of a file with `m` relations, from node `k` on, from the bytes that begin with the first:
// how many bytes they take together, or the first refusal. It alone calls `check_node`, which the compiler then
// makes part of the loop.
pub fn check_nodes(m: u8, k: u8, count: u8, bytes: &[u8]) -> Result<usize, Refusal>
    requires { k + count ≤ 256 }
    ensures { result ≡ check_nodes m count k 0 bytes.now }
{
    let mut at = 0;
    for i in 0..count {
        at += check_node(m, k + i, &bytes[at..])?;
    }
    Ok(at)
}
