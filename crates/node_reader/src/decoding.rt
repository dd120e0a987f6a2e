// The node of bytes that were checked.
ghost use Rattle.std.specs.Prelude.{◌≡◌, true, get_or};
ghost use Rattle.node.specs.ReadNode.{Checked, node_of, size_of, legal};

use attribute_set::AttrSet;
use bits::word_at;
use node::{Decoding, Node, binary_operator, set_operator};

// The node of checked bytes with map 26.
fn decode_with_set(bytes: &[u8]) -> Node
    requires { Checked bytes.now × (get_or bytes.now 0 0 ≡ 26) }
    ensures { result ≡ node_of bytes.now }
{
    match AttrSet::build(word_at(bytes, 3)) {
        Some(set) => Node::WithSet(set_operator(bytes[2]), bytes[1], set),
        None => Node::Relation(0),
    }
}

// The node of bytes that were checked, and its size.
pub fn decode(bytes: &[u8]) -> Decoding
    requires { Checked bytes.now }
    ensures node_value { result.node ≡ node_of bytes.now }
    ensures size_value { result.size ≡ size_of (get_or bytes.now 0 0) }
{
    let map = bytes[0];
    match map {
        1 => Decoding {
            node: Node::Relation(bytes[1]),
            size: 2,
        },
        14 => Decoding {
            node: Node::Binary(binary_operator(bytes[3]), bytes[1], bytes[2]),
            size: 4,
        },
        26 => Decoding {
            node: decode_with_set(bytes),
            size: 5,
        },
        98 => Decoding {
            node: Node::Renaming(bytes[1], bytes[2], bytes[3]),
            size: 4,
        },
        _ => Decoding {
            node: Node::ProjectingOut(bytes[1], bytes[2]),
            size: 3,
        },
    }
}

// The number of bytes of a node with this map, its map among them.
pub fn size_of(map: u8) -> usize
    requires { legal map ≡ true }
    ensures { result ≡ size_of map }
{
    match map {
        1 => 2,
        14 => 4,
        26 => 5,
        98 => 4,
        _ => 3,
    }
}
