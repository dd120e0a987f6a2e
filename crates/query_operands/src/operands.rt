// Operands and pairs: "A pair reads two operands, and an operand may be a pair again" (document 02, Point 2). Each
// reader writes the nodes of what it read; where it reads no operand, what it wrote before it saw this is free, and the
// writer stands in the same text, at the same place or a later one.
ghost use Rattle.query_language.specs.Parse.{relation_at, pair_with, operand_at};
ghost use Rattle.text.specs.Written.{Stands};
ghost use Rattle.query_operands.specs.Reading.{Room, Reads};

use crate::faults::{attribute_fault, relation_fault};
use node::Node;
use node_writer::write_node;
use query_prefixes::{byte_at, is_digit, prefix_at, sign_at};
use refusal::Refusal;
use text::Writer;

// The place after an operand, the number of nodes up to its own, and the refusal that its first number out of its range
// gives (FORMAT 11.8).
#[derive(Clone, Copy)]
pub struct Operand {
    pub next: usize,
    pub count: usize,
    pub fault: Option<Refusal>,
}

// A relation, after its letter.
fn read_relation(
    text: &[u8],
    m: u8,
    at: usize,
    nodes: &mut Writer<'_>,
    count: usize,
) -> Option<Operand>
    requires { Room text.now at nodes.old count }
    ensures reads { Reads m count nodes.old nodes.new (relation_at text.now at) result }
    ensures stands { Stands nodes.old nodes.new }
{
    let b = byte_at(text, at);
    if !is_digit(b) {
        return None;
    }
    let relation = b - b'0';
    write_node(nodes, Node::Relation(relation));
    Some(Operand {
        next: at + 1,
        count: count + 1,
        fault: relation_fault(relation, m),
    })
}

// An operand, if there is one, its nodes numbered from `count` on.
#[cycle(read_operand_read_pair)]
pub fn read_operand(
    text: &[u8],
    m: u8,
    at: usize,
    nodes: &mut Writer<'_>,
    count: usize,
) -> Option<Operand>
    requires { Room text.now at nodes.old count }
    ensures reads { Reads m count nodes.old nodes.new (operand_at text.now at) result }
    ensures stands { Stands nodes.old nodes.new }
{
    match byte_at(text, at) {
        b'r' => read_relation(text, m, at + 1, nodes, count),
        b'(' => read_pair(text, m, at + 1, nodes, count),
        _ => {
            let prefix = prefix_at(text, at)?;
            let operand = read_operand(text, m, prefix.next, nodes, count)?;
            write_node(nodes, prefix.unary.over((operand.count - 1) as u8));
            Some(Operand {
                next: operand.next,
                count: operand.count + 1,
                fault: attribute_fault(prefix.special).or(operand.fault),
            })
        }
    }
}

// A pair, after the parenthesis that opens it.
#[cycle(read_operand_read_pair)]
fn read_pair(text: &[u8], m: u8, at: usize, nodes: &mut Writer<'_>, count: usize) -> Option<Operand>
    requires { Room text.now at nodes.old count }
    ensures reads { Reads m count nodes.old nodes.new (pair_with (operand_at text.now) text.now at) result }
    ensures stands { Stands nodes.old nodes.new }
{
    let left = read_operand(text, m, at, nodes, count)?;
    let op = sign_at(text, left.next)?;
    let right = read_operand(text, m, left.next + 1, nodes, left.count)?;
    if byte_at(text, right.next) != b')' {
        return None;
    }
    let node = Node::Binary(op, (left.count - 1) as u8, (right.count - 1) as u8);
    write_node(nodes, node);
    Some(Operand {
        next: right.next + 1,
        count: right.count + 1,
        fault: left.fault.or(right.fault),
    })
}
