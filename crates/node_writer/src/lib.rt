// Writing a node (FORMAT 1.4).
#![tactic(auto)]

ghost use Rattle.text.specs.Written.{HasRoom, Writes};
ghost use Rattle.node.specs.NodeBytes.{node_bytes};

use node::{Node, binary_code, set_code};
use text::Writer;

// Writes the bytes of a node.
pub fn write_node(writer: &mut Writer<'_>, node: Node)
    requires { HasRoom 5 writer.old }
    ensures { Writes (node_bytes node) writer.old writer.new }
{
    match node {
        Node::Relation(relation) => {
            writer.write_bytes(&[1, relation]);
        }
        Node::Binary(op, left, right) => {
            writer.write_bytes(&[14, left, right, binary_code(op)]);
        }
        Node::WithSet(op, operand, set) => {
            let bits = set.to_bits();
            writer.write_bytes(&[
                26,
                operand,
                set_code(op),
                (bits % 256) as u8,
                (bits / 256) as u8,
            ]);
        }
        Node::Renaming(operand, old, new) => {
            writer.write_bytes(&[98, operand, old, new]);
        }
        Node::ProjectingOut(operand, old) => {
            writer.write_bytes(&[34, operand, old]);
        }
    }
}
