// The roots: the Sinks by index.
ghost use Rattle.std.specs.Prelude.{◌≡◌, ◌≤◌, ◌<◌, ◌++◌, length};
ghost use Rattle.plan.specs.Graph.{sinks};
ghost use Rattle.storage.specs.Stored.{stored_steps};
ghost use Rattle.ir_graph.specs.Turns.{root};

use crate::places::Places;
use plan::ir::IR;
use storage::steps::is_kind;

// Pushes the step i if it is a root. Bytes, as it asks of that step alone.
fn push_root(steps: &[u8; 1024], i: usize, list: &mut Places)
    requires { (i < 32) × (length list.old.items < 288) }
    ensures { list.new.items ≡ list.old.items ++ root steps.now i }
{
    if is_kind(steps, i, IR::Sink) {
        list.push(i as u8);
    }
}

// The list is then the roots. Bytes and a count, as it asks less of them than Steps does: that the steps are few.
pub fn push_roots(steps: &[u8; 1024], n: usize, list: &mut Places)
    requires { n ≤ 32 }
    ensures { list.new.items ≡ sinks (stored_steps steps.now n) }
{
    list.clear();
    for i in 0..n {
        push_root(steps, i, list);
    }
}
