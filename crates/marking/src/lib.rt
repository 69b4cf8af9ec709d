// Marks a candidate's paper: are its bytes the P lines of the finished sheet, and then its G lines but for those into removed sorts?
#![tactic(auto)]

ghost use Rattle.std.specs.Prelude.{◌≡◌, ◌++◌, List};
ghost use Rattle.plan.specs.Graph.{Edge};
ghost use Rattle.plan.specs.Lists.{same};
ghost use Rattle.plan.specs.Refusals.{outcome_of};
ghost use Rattle.edge_line.specs.EdgeLine.{LinesOf};
ghost use Rattle.marking.specs.Unmarked.{unmarked_lines};
ghost use Rattle.marking.specs.Marking.{mark_call, marked, verdict};

use crate::answer::Mark;
use crate::examined::equals_examined;
use plan::refusal::Refusal;
use storage::removed::Removed;

pub mod answer; // answer.rt: what marking answers
pub mod examined; // examined.rt: the G lines that are examined
pub mod line; // line.rt: the line that is printed for it

// Is the paper the P lines, then the G lines but for those whose consumer was removed, and nothing else? Both blocks are always compared.
fn compare(paper: &[u8], steps: &[u8], edges: &[u8], removed: &Removed) -> Mark
    requires { (ds : List Edge) × LinesOf ds edges.now }
    ensures { (ds : List Edge) → LinesOf ds edges.now → result ≡ verdict (same paper.now (steps.now ++ unmarked_lines removed.now ds)) }
{
    let Some((front, rest)) = paper.split_at_checked(steps.len()) else {
        return Mark::Wrong;
    };
    let steps_right = front == steps;
    let edges_right = equals_examined(rest, edges, removed);
    if steps_right & edges_right {
        return Mark::Right;
    }
    Mark::Wrong
}

// The definition decides the answer and every byte of the output: the finished sheet, unless the sheet is refused.
pub fn mark(sheet: &[u8], paper: &[u8], out: &mut [u8]) -> Result<Mark, Refusal>
    ensures { mark_call (outcome_of result) out.new ≡ marked sheet.now paper.now out.old }
{
    let report = engine::finish_and_report(sheet, out)?;
    let finished: &[u8] = out;
    let exprs = report.finished.exprs;
    let steps = report.finished.steps;
    let edges = report.finished.edges;
    Ok(compare(
        paper,
        &finished[exprs..steps],
        &finished[steps..edges],
        &report.removed,
    ))
}
