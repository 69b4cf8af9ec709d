// From a plan to its finished sheet: the graph, the walks, the writing.
ghost use Rattle.std.specs.Prelude.{◌≡◌, ◌≤◌, length};
ghost use Rattle.plan.specs.Finished.{called};
ghost use Rattle.plan.specs.Refusals.{outcome_of};
ghost use Rattle.plan.specs.Walks.{simplify_and_fetch_orderings};
ghost use Rattle.claims.specs.WellFormed.{WellFormed};
ghost use Rattle.simplify_ordering.specs.Held.{run_of};
ghost use Rattle.simplify_ordering.specs.Walks.{sheet_of};
ghost use Rattle.engine.specs.Call.{call, finished_of, Reports, RunWrote};

use crate::report::Report;
use ir_graph::ir_graph::build_ir_traversal_graph;
use ir_graph::places::Places;
use plan::answer::Finished;
use plan::refusal::Refusal;
use simplify_ordering::run::StoredRun;
use simplify_ordering::walks::simplify_and_fetch_orderings;
use writing::finished::{Tallies, put_finished};

// What the walks leave, as text. The arena is written out over its records first.
fn write_run(run: &mut StoredRun, ends: &[u8; 544], removed: usize, out: &mut [u8]) -> Finished
    requires { 16384 ≤ length out.old }
    ensures { RunWrote (run_of run.old ends.now) removed out.old out.new result }
{
    run.arena.write_out();
    let arena = &run.arena;
    let records = &arena.records;
    let tallies = Tallies {
        removed,
        tally: run.tally,
    };
    put_finished(
        out,
        &records.bytes,
        records.count,
        &run.steps,
        ends,
        &run.edges,
        tallies,
    )
}

// The graph of a plan, the walks over it, and what they leave. A refusal comes before anything is written. It is handed on by an arm of its own
// and no `?`, so that the edit which hands on another is that value alone.
pub fn finish_run(run: &mut StoredRun, out: &mut [u8]) -> Result<Report, Refusal>
    requires in_bounds { 16384 ≤ length out.old }
    requires formed { WellFormed (sheet_of run.old) }
    ensures out_after { call (finished_of (outcome_of result)) out.new ≡ called out.old (simplify_and_fetch_orderings (sheet_of run.old)) }
    ensures reports { Reports (simplify_and_fetch_orderings (sheet_of run.old)) result }
{
    let mut list = Places::new();
    let mut ends: [u8; 544] = [0; 544];
    build_ir_traversal_graph(&run.steps, &mut list, &mut ends, &mut run.edges);
    match simplify_and_fetch_orderings(run, &ends, list.as_slice()) {
        Ok(removed) => {
            let finished = write_run(run, &ends, removed.count, out);
            Ok(Report { finished, removed })
        }
        Err(refusal) => Err(refusal),
    }
}
