// The second pass, along the growing list: the places and the edges.
ghost use Rattle.std.specs.Prelude.{◌≡◌, ℕ, ◌+◌, ◌≤◌, ◌<◌, ◌++◌, T, length, get_or};
ghost use Rattle.claims.specs.Plan.{Plan};
ghost use Rattle.storage.specs.Held.{steps_in};
ghost use Rattle.storage.specs.Stored.{StepFormed};
ghost use Rattle.ir_graph.specs.Hits.{HitsCounted};
ghost use Rattle.ir_graph.specs.Built.{Built};
ghost use Rattle.ir_graph.specs.Turns.{cached, followed_by, used};

use crate::edges::link;
use crate::hits::count_hits;
use crate::places::Places;
use crate::roots::push_roots;
use crate::stored::copy_inputs;
use plan::ir::IR;
use storage::edges::store_first_into;
use storage::steps::is_kind;
use storage::stored::{Edges, Steps};

// The inputs that follow the place of the step i: a Cache's follow at its last place.
// No one function with `meet`: the two count in opposite directions and stop at other counts, which is all that they do. Bytes, as
// it asks of the step i alone.
fn follow(steps: &[u8; 1024], i: usize, places: &mut Places, hits: &mut [u8; 32])
    requires i_bound { i < 32 }
    requires step_formed { StepFormed steps.now i }
    requires hit_left { T (cached steps.now i) → 1 ≤ get_or hits.old i 0 }
    requires room { length places.old.items + length (followed_by steps.now hits.old i) ≤ 288 }
    ensures followed { places.new.items ≡ places.old.items ++ followed_by steps.now hits.old i }
    ensures hit_used { hits.new ≡ used steps.now hits.old i }
{
    if is_kind(steps, i, IR::Cache) {
        hits[i] -= 1;
        if hits[i] != 0 {
            return;
        }
    }
    copy_inputs(steps, i, places);
}

// Along the list, which grows at its end until every place is gone through. `hits` are those that the first pass counted; they are
// used up.
fn grow(
    steps: &Steps,
    hits: &mut [u8; 32],
    places: &mut Places,
    ends: &mut [u8; 544],
    edges: &mut Edges,
)
    requires plan { Plan (steps_in steps.now) }
    requires hits_counted { HitsCounted (steps_in steps.now) hits.old }
    requires ends_empty { (i : ℕ) → get_or ends.old i 0 ≡ 0 }
    ensures { Built (steps_in steps.now) places.new.items ends.new edges.new.bytes edges.new.count }
{
    push_roots(&steps.bytes, steps.count, places);
    edges.count = 0;
    let mut i: usize = 0;
    // a `for` would borrow the list, which grows as it is gone along
    while i < places.len() {
        let list = places.as_slice();
        let current = list[i];
        let start = list.len();
        // a Cache's is written at each of its places: that of the last, where its edges are made, stays
        store_first_into(ends, current, edges.count as u8);
        follow(&steps.bytes, usize::from(current), places, hits);
        link(current, &places.as_slice()[start..], ends, edges);
        i += 1;
    }
}

// Builds the traversal graph, in which a Cache is visited only after all of its consumers are: `places` is then the visiting list.
// What `edges` held before is gone.
pub fn build_ir_traversal_graph(
    steps: &Steps,
    places: &mut Places,
    ends: &mut [u8; 544],
    edges: &mut Edges,
)
    requires plan { Plan (steps_in steps.now) }
    requires ends_empty { (i : ℕ) → get_or ends.old i 0 ≡ 0 }
    ensures { Built (steps_in steps.now) places.new.items ends.new edges.new.bytes edges.new.count }
{
    let mut hits: [u8; 32] = [0; 32];
    let mut met = Places::new();
    count_hits(steps, &mut hits, &mut met);
    grow(steps, &mut hits, places, ends, edges);
}
