// The whole finished sheet, block by block.
ghost use Rattle.std.specs.Prelude.{[], ◌∷◌, ℕ, ◌≤◌, ◌<◌, length};
ghost use Rattle.plan.specs.Lists.{concat_map};
ghost use Rattle.plan.specs.Text.{line, expr_line, step_line, edge_line};
ghost use Rattle.storage.specs.Held.{steps_in, edges_in};
ghost use Rattle.storage.specs.Stored.{stored_exprs, ExprFormed};
ghost use Rattle.writing.specs.Blocks.{FiguresTold, SheetWrote};

use crate::blocks::{put_edges, put_exprs, put_steps};
use crate::lines::put_tally;
use plan::answer::Finished;
use plan::tally::Tally;
use storage::stored::{Edges, Steps};

// The figures of the T line.
#[derive(Clone, Copy)]
pub struct Tallies {
    pub removed: usize,
    pub tally: Tally,
}

// A run as it is stored, its arena written out. Of the n expressions it asks less than Records does: that each is formed.
pub fn put_finished(
    out: &mut [u8],
    exprs: &[u8; 2048],
    n: usize,
    steps: &Steps,
    ends: &[u8; 544],
    edges: &Edges,
    t: Tallies,
) -> Finished
    requires in_bounds { 16384 ≤ length out.old }
    requires few_exprs { n ≤ 128 }
    requires exprs_formed { (i : ℕ) → i < n → ExprFormed exprs.now i }
    ensures sheet_wrote { SheetWrote (concat_map expr_line (stored_exprs exprs.now n)) (concat_map step_line (steps_in steps.now)) (concat_map edge_line (edges_in ends.now edges.now)) (line 84 (t.removed ∷ t.tally.visits ∷ t.tally.looks ∷ [])) out.old out.new result }
    ensures figures_told { FiguresTold t result }
{
    let a = put_exprs(out, exprs, n);
    let b = a + put_steps(&mut out[a..], steps);
    let c = b + put_edges(&mut out[b..], ends, edges);
    let tally = t.tally;
    let d = c + put_tally(&mut out[c..], t.removed as u64, tally.visits, tally.looks);
    Finished {
        exprs: a,
        steps: b,
        edges: c,
        length: d,
        removed: t.removed,
        visits: tally.visits,
        looks: tally.looks,
    }
}
