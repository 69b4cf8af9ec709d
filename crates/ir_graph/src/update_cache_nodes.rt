// CacheNodeUpdater::update_cache_nodes: after the walks the Cache lines of one id have one input.
ghost use Rattle.std.specs.Prelude.{◌≡◌, ◌≤◌, ◌<◌, length};
ghost use Rattle.storage.specs.Held.{steps_in};
ghost use Rattle.plan.specs.Graph.{update_cache_nodes};
ghost use Rattle.ir_graph.specs.UpdateCaches.{line_met, update_cache_node, Updatable};

use plan::ir::IR;
use storage::steps::is_kind;
use storage::stored::Steps;

// Line m, if it is a Cache, takes the input of the line of its id that was met first.
fn update_cache_node(steps: &mut Steps, first: &[u8], m: usize)
    requires here { m < steps.old.count }
    requires line_there { m < length first.now }
    requires updatable { Updatable first.now (steps_in steps.old) }
    ensures updated { steps_in steps.new ≡ update_cache_node first.now (steps_in steps.old) m }
    ensures count { steps.new.count ≡ steps.old.count }
{
    let cached = is_kind(&steps.bytes, m, IR::Cache);
    if cached {
        let line = usize::from(first[m]);
        let input = steps.first_input(line);
        steps.store_input(m, 0, input);
    }
}

// `first` is what first_met gave before the walks.
pub fn update_cache_nodes(steps: &mut Steps, first: &[u8])
    requires lines_there { steps.old.count ≤ length first.now }
    requires updatable { Updatable first.now (steps_in steps.old) }
    ensures updated { steps_in steps.new ≡ update_cache_nodes (line_met first.now) (steps_in steps.old) }
    ensures count { steps.new.count ≡ steps.old.count }
{
    for m in 0..steps.count {
        update_cache_node(steps, first, m);
    }
}
