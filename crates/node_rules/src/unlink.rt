// unlink_node: a removed sort's consumer takes the sort's input in its place.
ghost use Rattle.std.specs.Prelude.{◌≡◌, List, map, ℕ, ◌≤◌, ◌<◌};
ghost use Rattle.plan.specs.Refusals.{option_of};
ghost use Rattle.plan.specs.Visit.{in_edge};
ghost use Rattle.storage.specs.Edges.{byte_of, producer_of};
ghost use Rattle.storage.specs.Held.{steps_in, edges_in};
ghost use Rattle.node_rules.specs.Held.{InRun, handed_on, cut_off, EdgesHeld, Unlinkable, Unlinked};

use crate::around::leaving_edge;
use crate::in_edges::InEdges;
use storage::edges::{consumer_of, is_out_of, loosen_if, produce_if, producer_of, slot_of};
use storage::stored::{Edges, Steps};

impl InEdges {
    // The edges out of their step are produced by `from`, if there is one.
    fn hand_on(self, edges: &mut Edges, from: Option<u8>)
        ensures edges_after { (ends : List ℕ) → edges_in ends edges.new ≡ map (handed_on self.of (producer_of (byte_of from))) (edges_in ends edges.old) }
        ensures count { edges.new.count ≡ edges.old.count }
    {
        for k in 0..edges.count {
            let out_of = is_out_of(&edges.bytes, k, self.of);
            produce_if(&mut edges.bytes, k, out_of, from);
        }
    }

    // They lose their producer and are unordered.
    fn cut_off(self, edges: &mut Edges)
        ensures edges_after { (ends : List ℕ) → InRun ends edges.old.count self → edges_in ends edges.new ≡ map (cut_off self.of) (edges_in ends edges.old) }
        ensures count { edges.new.count ≡ edges.old.count }
    {
        for k in self.from..self.to {
            produce_if(&mut edges.bytes, k, true, None);
            loosen_if(&mut edges.bytes, k, true);
        }
    }

    // What produces the first of them, if there is one.
    fn producer(self, edges: &Edges) -> Option<u8>
        ensures { (ends : List ℕ) → InRun ends edges.now.count self → option_of result ≡ (in_edge self.of (edges_in ends edges.now)).producer }
    {
        if self.from < self.to {
            producer_of(&edges.bytes, self.from)
        } else {
            None
        }
    }
}

// d are the edges into a step. Its consumer takes its input in its place, and what produces that is what produces its edge. Its out-edge
// is there, since it is unordered.
pub fn unlink_node(steps: &mut Steps, ends: &[u8; 544], edges: &mut Edges, d: InEdges)
    requires edges_held { EdgesHeld (steps_in steps.old) (edges_in ends.now edges.old) × InRun ends.now edges.old.count d }
    requires unlinkable { Unlinkable (steps_in steps.old) d.of (edges_in ends.now edges.old) }
    ensures unlinked { Unlinked d.of (steps_in steps.old) (edges_in ends.now edges.old) (steps_in steps.new) (edges_in ends.now edges.new) }
    ensures steps_count { steps.new.count ≡ steps.old.count }
    ensures edges_count { edges.new.count ≡ edges.old.count }
{
    let leaving = leaving_edge(edges, d.of).unwrap();
    let consumer = usize::from(consumer_of(ends, leaving));
    let slot = usize::from(slot_of(ends, leaving));
    let input = steps.first_input(usize::from(d.of));
    steps.store_input(consumer, slot, input);
    let from = d.producer(edges);
    d.hand_on(edges, from);
    d.cut_off(edges);
}
