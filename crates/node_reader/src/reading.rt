// One node, checked and decoded.
ghost use Rattle.std.specs.Prelude.{◌≡◌};
ghost use Rattle.node.specs.ReadNode.{read_node};

use crate::decoding::decode;
use node::{Decoding, check_nodes};
use refusal::Refusal;

// Node `k` of a file with `m` relations, from the bytes that begin with it (FORMAT 7.4): refusals 4 to 9.
pub fn read_node(m: u8, k: u8, bytes: &[u8]) -> Result<Decoding, Refusal>
    ensures { result ≡ read_node m k bytes.now }
{
    check_nodes(m, k, 1, bytes)?;
    Ok(decode(bytes))
}
