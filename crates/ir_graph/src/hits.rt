// The first pass, depth first: how often each Cache is met, and in which order.
ghost use Rattle.std.specs.Prelude.{◌≡◌, ℕ, ◌+◌, ◌≤◌, ◌<◌, ◌++◌, T, length, get_or};
ghost use Rattle.claims.specs.Plan.{Plan};
ghost use Rattle.storage.specs.Held.{steps_in};
ghost use Rattle.storage.specs.Stored.{StepFormed};
ghost use Rattle.ir_graph.specs.Turns.{cached, pushed_by, hit};
ghost use Rattle.ir_graph.specs.Hits.{HitsCounted, MetNoted};

use crate::places::Places;
use crate::roots::push_roots;
use crate::stored::copy_inputs;
use plan::ir::IR;
use storage::steps::is_kind;
use storage::stored::Steps;

// The step i is popped: a Cache's hit is counted, and its inputs are pushed unless it is a Cache that was met before.
// Bytes, as it asks of the step i alone.
fn meet(steps: &[u8; 1024], i: usize, stack: &mut Places, hits: &mut [u8; 32])
    requires i_bound { i < 32 }
    requires step_formed { StepFormed steps.now i }
    requires hit_fits { T (cached steps.now i) → get_or hits.old i 0 < 255 }
    requires room { length stack.old.items + length (pushed_by steps.now hits.old i) ≤ 288 }
    ensures pushed { stack.new.items ≡ stack.old.items ++ pushed_by steps.now hits.old i }
    ensures hit_counted { hits.new ≡ hit steps.now hits.old i }
{
    if is_kind(steps, i, IR::Cache) {
        hits[i] += 1;
        if 1 < hits[i] {
            return;
        }
    }
    copy_inputs(steps, i, stack);
}

// How often each Cache is met, into `hits`, and the steps in the order in which they are popped, into `met`: as many as the turns,
// the Rust's `iterations`. `Plan` stays a clause, here and where this is called: tried as a ghost field, it is refused, since it
// has an 'or' and a rank for each step, and a ghost field takes neither.
pub fn count_hits(steps: &Steps, hits: &mut [u8; 32], met: &mut Places)
    requires plan { Plan (steps_in steps.now) }
    requires no_hits { (i : ℕ) → get_or hits.old i 0 ≡ 0 }
    ensures hits_counted { HitsCounted (steps_in steps.now) hits.new }
    ensures met_noted { MetNoted (steps_in steps.now) met.new.items }
{
    let mut stack = Places::new();
    push_roots(&steps.bytes, steps.count, &mut stack);
    met.clear();
    while let Some(top) = stack.pop() {
        met.push(top);
        meet(&steps.bytes, usize::from(top), &mut stack, hits);
    }
}
