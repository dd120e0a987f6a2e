// What stands before an operand (FORMAT 11.3): a selection or a projection with its list, a renaming, a projecting out.
ghost use Rattle.std.specs.Prelude.{◌≡◌};
ghost use Rattle.query_language.specs.Parse.{set_at, renaming_at, projecting_out_at, prefix_at};
ghost use Rattle.query_prefixes.specs.Answers.{Placed, node_over, prefix_answer};

use crate::lists::list_at;
use crate::numbers::ended_number;
use crate::places::byte_at;
use attribute_set::{AttrSet, is_special};
use node::{Node, SetOp};

// A node of one operand, without the operand.
#[derive(Clone, Copy)]
pub enum UnaryNode {
    WithSet(SetOp, AttrSet),
    Renaming(u8, u8),
    ProjectingOut(u8),
}

impl UnaryNode {
    // The node over an operand.
    pub fn over(self, operand: u8) -> Node
        ensures { result ≡ node_over self operand }
    {
        match self {
            UnaryNode::WithSet(op, set) => Node::WithSet(op, operand, set),
            UnaryNode::Renaming(old, new) => Node::Renaming(operand, old, new),
            UnaryNode::ProjectingOut(old) => Node::ProjectingOut(operand, old),
        }
    }
}

// What a prefix makes of its operand, whether all its attributes are special, and the place after it.
#[derive(Clone, Copy)]
pub struct PrefixReading {
    pub unary: UnaryNode,
    pub special: bool,
    pub next: usize,
}

// A selection or a projection, after the bracket that opens its list.
fn set_at(op: SetOp, text: &[u8], at: usize) -> Option<PrefixReading>
    requires { Placed text.now at }
    ensures { result ≡ prefix_answer (set_at op text.now at) }
{
    let list = list_at(text, at)?;
    Some(PrefixReading {
        unary: UnaryNode::WithSet(op, list.set),
        special: list.special,
        next: list.next,
    })
}

// A renaming, after its bracket.
fn renaming_at(text: &[u8], at: usize) -> Option<PrefixReading>
    requires { Placed text.now at }
    ensures { result ≡ prefix_answer (renaming_at text.now at) }
{
    let old = ended_number(text, at, b'>')?;
    let new = ended_number(text, old.next, b']')?;
    Some(PrefixReading {
        unary: UnaryNode::Renaming(old.value, new.value),
        special: is_special(old.value) && is_special(new.value),
        next: new.next,
    })
}

// A projecting out, after its bracket.
fn projecting_out_at(text: &[u8], at: usize) -> Option<PrefixReading>
    requires { Placed text.now at }
    ensures { result ≡ prefix_answer (projecting_out_at text.now at) }
{
    let old = ended_number(text, at, b']')?;
    Some(PrefixReading {
        unary: UnaryNode::ProjectingOut(old.value),
        special: is_special(old.value),
        next: old.next,
    })
}

// The prefix at a place, if there is one.
pub fn prefix_at(text: &[u8], at: usize) -> Option<PrefixReading>
    requires { Placed text.now at }
    ensures { result ≡ prefix_answer (prefix_at text.now at) }
{
    if byte_at(text, at + 1) != b'[' {
        return None;
    }
    match byte_at(text, at) {
        b'S' => set_at(SetOp::Selection, text, at + 2),
        b'P' => set_at(SetOp::Projection, text, at + 2),
        b'N' => renaming_at(text, at + 2),
        b'D' => projecting_out_at(text, at + 2),
        _ => None,
    }
}
