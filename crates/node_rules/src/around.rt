// A step's edges as a visit finds them.
ghost use Rattle.std.specs.Prelude.{◌≡◌, List, false, ℕ, ◌≤◌, ◌<◌, ltb, if◌then◌else◌};
ghost use Rattle.std.specs.Option.{unwrap_or, IfSome};
ghost use Rattle.plan.specs.Lists.{all?};
ghost use Rattle.plan.specs.Visit.{around, outs_unordered};
ghost use Rattle.claims.specs.Demand3.{leaving_among};
ghost use Rattle.storage.specs.Edges.{mark, InARow};
ghost use Rattle.storage.specs.Held.{edges_in};
ghost use Rattle.node_rules.specs.Held.{Among, InRun, run_marks};

use crate::in_edges::InEdges;
use plan::rules::Around;
use storage::edges::{consumer_of, first_into, is_out_of, is_unordered};
use storage::stored::Edges;

// The edges into n, among the first `len`, stand in a row, from the one whose number `ends` has for it. The number alone, and no Edges: it is
// asked of `ends`, and nothing of their bytes.
pub fn in_edges_of(ends: &[u8; 544], len: usize, n: u8) -> InEdges
    requires { Among len n × InARow ends.now len n }
    ensures its_step { result.of ≡ n }
    ensures its_edges { InRun ends.now len result }
{
    let from = usize::from(first_into(ends, n));
    let to = (from..len)
        .find(|k| consumer_of(ends, *k) != n)
        .unwrap_or(len);
    InEdges { of: n, from, to }
}

impl InEdges {
    // Are all of them unordered?
    fn all_unordered(self, edges: &Edges) -> bool
        ensures { result ≡ all? (λ b. b) (run_marks edges.now.bytes self) }
    {
        (self.from..self.to).all(|k| is_unordered(&edges.bytes, k))
    }

    // Are all edges out of its step unordered? `fold` has no branch. `all` has one for each edge, and with it a whole call on 234 edges
    // (oracle/worst/cache_under_29_unions_unordered) took 89 microseconds in place of 32.
    fn all_out_unordered(self, edges: &Edges) -> bool
        ensures { (ends : List ℕ) → result ≡ outs_unordered self.of (edges_in ends edges.now) }
    {
        let bytes = &edges.bytes;
        (0..edges.count).fold(true, |all, k| {
            all & (is_unordered(bytes, k) | !is_out_of(bytes, k, self.of))
        })
    }
}

// Is the edge k unordered, if it is one before `to`?
fn unordered_before(edges: &Edges, k: usize, to: usize) -> bool
    requires { to ≤ 256 }
    ensures { result ≡ (if ltb k to then mark edges.now.bytes k else false) }
{
    k < to && is_unordered(&edges.bytes, k)
}

// The number of the edge leaving n: the first whose producer it is, if there is one.
pub fn leaving_edge(edges: &Edges, n: u8) -> Option<usize>
    requires { n < 32 }
    ensures number { (ends : List ℕ) → unwrap_or result edges.now.count ≡ leaving_among n (edges_in ends edges.now) }
    ensures among { IfSome result (λ k. k < edges.now.count) }
{
    let bytes = &edges.bytes;
    (0..edges.count).find(|k| is_out_of(bytes, *k, n))
}

// The edges of a step; d are those into it.
pub fn around_step(edges: &Edges, d: InEdges) -> Around
    ensures { (ends : List ℕ) → InRun ends edges.now.count d → result ≡ around d.of (edges_in ends edges.now) }
{
    Around {
        ins: d.all_unordered(edges),
        in0: unordered_before(edges, d.from, d.to),
        in1: unordered_before(edges, d.from + 1, d.to),
        out: leaving_edge(edges, d.of).is_some_and(|k| is_unordered(&edges.bytes, k)),
        outs: d.all_out_unordered(edges),
    }
}
