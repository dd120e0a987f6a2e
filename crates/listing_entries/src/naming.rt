// The attributes that are named anywhere in a file (FORMAT 7.15).
ghost use Rattle.std.specs.Prelude.{◌≡◌};
ghost use Rattle.attribute_set.specs.AttrSet.{has_attribute};
ghost use Rattle.expression_file.specs.ReadFile.{node_at};
ghost use Rattle.listing_entries.specs.Naming.{names, Joined, Named};

use accepted_file::AcceptedFile;
use attribute_set::AttrSet;
use node::Node;
use node_reader::decode;

// The attributes of both sets.
fn join(set: AttrSet, other: AttrSet) -> AttrSet
    ensures { Joined set (has_attribute other) result }
{
    let mut all = set;
    for a in 1..16 {
        if other.has(a) {
            all = all.add(a);
        }
    }
    all
}

// The set with the attributes that a node names.
fn add_named(set: AttrSet, node: Node) -> AttrSet
    ensures { Joined set (names node) result }
{
    match node {
        Node::Relation(_) | Node::Binary(_, _, _) => set,
        Node::WithSet(_, _, other) => join(set, other),
        Node::Renaming(_, old, new) => set.add(old).add(new),
        Node::ProjectingOut(_, old) => set.add(old),
    }
}

// The attributes that the nodes of an accepted file name.
pub fn named_attributes(file: &AcceptedFile<'_>) -> AttrSet
    ensures { Named (node_at file.now.bytes.now) file.now.header.nodes result }
{
    let mut set = AttrSet::empty();
    let mut at = 2;
    for k in 0..file.header.nodes {
        let decoding = decode(&file.bytes[at..]);
        set = add_named(set, decoding.node);
        at += decoding.size;
    }
    set
}
