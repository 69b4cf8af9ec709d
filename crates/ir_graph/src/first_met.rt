// The line of each cache id that the first pass meets first: nodes[0] of the Rust's CacheNodes.
ghost use Rattle.std.specs.Prelude.{◌≡◌, ℕ, ◌<◌, length, get_or};
ghost use Rattle.plan.specs.Graph.{one_id, first_met};
ghost use Rattle.claims.specs.Plan.{Plan};
ghost use Rattle.storage.specs.Held.{steps_in};
ghost use Rattle.ir_graph.specs.UpdateCaches.{first_lines};

use crate::hits::count_hits;
use crate::places::Places;
use arrayvec::ArrayVec;
use plan::ir::IR;
use storage::steps::{cache_id, is_kind};
use storage::stored::Steps;

// Are both Caches, with one id?
fn one_id(steps: &Steps, k: usize, m: usize) -> bool
    requires one { k < steps.now.count }
    requires other { m < steps.now.count }
    ensures { result ≡ one_id (steps_in steps.now) k m }
{
    let bytes = &steps.bytes;
    is_kind(bytes, k, IR::Cache)
        && is_kind(bytes, m, IR::Cache)
        && cache_id(bytes, k) == cache_id(bytes, m)
}

// The first Cache with m's id among those met; m itself where there is none. No `find`: tried, its closure's call is not proved to be
// allowed, since that what is met is there is not handed to it.
fn first_of_id(steps: &Steps, met: &[u8], m: usize) -> u8
    requires here { m < steps.now.count }
    requires met_there { (k : ℕ) → k < length met.now → get_or met.now k 0 < steps.now.count }
    ensures { result ≡ first_met (steps_in steps.now) met.now m }
{
    for k in met {
        if one_id(steps, usize::from(*k), m) {
            return *k;
        }
    }
    m as u8
}

// The key of each line, before the walks: of a Cache the first with its id that the first pass meets.
pub fn first_met(steps: &Steps) -> ArrayVec<u8, 32>
    requires { Plan (steps_in steps.now) }
    ensures { result.items ≡ first_lines (steps_in steps.now) }
{
    let mut hits: [u8; 32] = [0; 32];
    let mut met = Places::new();
    count_hits(steps, &mut hits, &mut met);
    let mut first = ArrayVec::new();
    for m in 0..steps.count {
        first.push(first_of_id(steps, met.as_slice(), m));
    }
    first
}
