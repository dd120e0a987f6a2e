// A node in a machine word: its map and its fields in bit order, a byte each (FORMAT 7.19).
ghost use Rattle.std.specs.Prelude.{◌≡◌, ◌<◌, ◌^◌};
ghost use Rattle.node_word.specs.NodeWord.{word_of, node_word, read_word};

use node::{Node, binary_code, set_code};

// Five bytes, low first.
fn word(a: u8, b: u8, c: u8, d: u8, e: u8) -> u64
    ensures value { result ≡ word_of a b c d e }
    ensures upper_bound { result < 2 ^ 40 }
{
    u64::from_le_bytes([a, b, c, d, e, 0, 0, 0])
}

// The node alone.
fn node_word(node: Node) -> u64
    ensures value { result ≡ node_word node }
    ensures upper_bound { result < 2 ^ 40 }
{
    match node {
        Node::Relation(relation) => word(1, relation, 0, 0, 0),
        Node::Binary(op, left, right) => word(14, left, right, binary_code(op), 0),
        Node::WithSet(op, operand, set) => {
            let bits = set.to_bits();
            word(
                26,
                operand,
                set_code(op),
                (bits % 256) as u8,
                (bits / 256) as u8,
            )
        }
        Node::Renaming(operand, old, new) => word(98, operand, old, new, 0),
        Node::ProjectingOut(operand, old) => word(34, operand, old, 0, 0),
    }
}

// A node and the number of its bytes, after a byte that is 0.
pub fn read_word(node: Node, size: u8) -> u64
    ensures { result ≡ read_word node size }
{
    (size as u64 + node_word(node) * 256) * 256
}
