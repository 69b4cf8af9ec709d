// IRNodeKey: a Cache goes by its id, any other step by its line.
ghost use Rattle.std.specs.Prelude.{◌≡◌, ◌<◌};
ghost use Rattle.storage.specs.Stored.{stored_step};
ghost use Rattle.ir_graph.specs.NodeKey.{node_key};

use plan::ir::IR;
use storage::steps::{cache_id, is_kind};

// On an accepted sheet two steps with one key are one line (proofs/NodeKey), so the graph lets a step's line stand for its key.
#[derive(Clone, Copy, Debug, PartialEq, Eq)]
pub enum IRNodeKey {
    Node(u8),
    CacheId(u8),
}

impl IRNodeKey {
    // Of bytes: it asks of the step i only that it is there.
    pub fn new(steps: &[u8; 1024], i: u8) -> IRNodeKey
        requires { i < 32 }
        ensures { result ≡ node_key (stored_step steps.now i) i }
    {
        let line = usize::from(i);
        if is_kind(steps, line, IR::Cache) {
            IRNodeKey::CacheId(cache_id(steps, line))
        } else {
            IRNodeKey::Node(i)
        }
    }
}
