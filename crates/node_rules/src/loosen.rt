// The edges that a rule loosens: each is set to Edge::Unordered. Here and in unlink.rt each change of several edges is a loop of three
// lines or four: a function that takes the change as a closure would need a contract over its calls that is longer than the four loops.
ghost use Rattle.std.specs.Prelude.{◌≡◌, List, map, ℕ, ◌<◌, eqb, if◌then◌else◌};
ghost use Rattle.plan.specs.Visit.{loosened};
ghost use Rattle.storage.specs.Held.{edges_in};
ghost use Rattle.node_rules.specs.Held.{InRun, ins_of, outs_of};

use crate::in_edges::InEdges;
use plan::rules::Loosened;
use storage::edges::{is_out_of, loosen_if, slot_of};
use storage::stored::Edges;

// Is an edge into slot k loosened?
fn loosened_in(l: Loosened, k: u8) -> bool
    ensures { result ≡ (if eqb k 0 then l.in0 else l.later) }
{
    if k == 0 { l.in0 } else { l.later }
}

impl InEdges {
    // All of them.
    fn loosen(self, ends: &[u8; 544], edges: &mut Edges, l: Loosened)
        ensures edges_after { InRun ends.now edges.old.count self → edges_in ends.now edges.new ≡ map (loosened self.of (ins_of l)) (edges_in ends.now edges.old) }
        ensures count { edges.new.count ≡ edges.old.count }
    {
        if !(l.in0 | l.later) {
            return;
        }
        for k in self.from..self.to {
            loosen_if(&mut edges.bytes, k, loosened_in(l, slot_of(ends, k)));
        }
    }

    // The edges out of their step.
    fn loosen_out(self, edges: &mut Edges, out: bool)
        ensures edges_after { (ends : List ℕ) → edges_in ends edges.new ≡ map (loosened self.of (outs_of out)) (edges_in ends edges.old) }
        ensures count { edges.new.count ≡ edges.old.count }
    {
        if !out {
            return;
        }
        for k in 0..edges.count {
            let out_of = is_out_of(&edges.bytes, k, self.of);
            loosen_if(&mut edges.bytes, k, out_of);
        }
    }
}

// The edges of a step: into slot 0, into the later slots, out. d are those into it.
pub fn loosen_edges(ends: &[u8; 544], edges: &mut Edges, d: InEdges, l: Loosened)
    requires in_run { InRun ends.now edges.old.count d }
    ensures edges_after { edges_in ends.now edges.new ≡ map (loosened d.of l) (edges_in ends.now edges.old) }
    ensures count { edges.new.count ≡ edges.old.count }
{
    d.loosen(ends, edges, l);
    d.loosen_out(edges, l.out);
}
