// From the bytes of a sheet to its plan: refusals 2 to 9, 12 and 13.
#![tactic(auto)]

ghost use Rattle.reading.specs.Lent.{sheet_in};
ghost use Rattle.reading.specs.Plan.{checked_plan, plan_of, PlanIs, PlanHeld};

use crate::fields::fields_right;
use crate::held::{ExprLines, StepLines};
use crate::lines::read_lines;
use crate::references::references_right;
use crate::uses::{ids_differ, uses_fault};
use plan::refusal::Refusal;

pub mod fields; // fields.rt: struct fields under an evaluation child
pub mod held; // held.rt: stored lines, lent with their number
pub mod line; // line.rt: the numbers of a line
pub mod lines; // lines.rt: the lines, one after the other, as they are stored
pub mod namings; // namings.rt: how often numbers are named
pub mod number; // number.rt: a number of a line
pub mod references; // references.rt: what lines refer to
pub mod tables; // tables.rt: what each kind of line may have
pub mod uses; // uses.rt: how often lines are named, and ids

// How many E lines and P lines a plan has.
#[derive(Clone, Copy)]
pub struct Counts {
    pub exprs: usize,
    pub steps: usize,
}

// What is checked once all lines are read: a plan is there (6), references (7), uses (8 and 12), ids (13), struct fields (9).
fn check_plan(exprs: ExprLines<'_>, steps: StepLines<'_>) -> Result<Counts, Refusal>
    ensures { let es = exprs.entry.bytes.now in let ps = steps.entry.bytes.now in
        PlanIs (checked_plan (sheet_in exprs.entry steps.entry)) es ps result × PlanHeld es ps result }
{
    if steps.count == 0 {
        return Err(Refusal::NoPlan);
    }
    if !references_right(exprs, steps) {
        return Err(Refusal::Reference);
    }
    uses_fault(exprs, steps)?;
    if !ids_differ(steps.bytes, steps.count) {
        return Err(Refusal::CacheId);
    }
    if !fields_right(exprs) {
        return Err(Refusal::StructField);
    }
    Ok(Counts {
        exprs: exprs.count,
        steps: steps.count,
    })
}

// A sheet's plan: its lines stand in the two buffers as storage/specs/Stored says. What the buffers hold after a refusal is left free, so they
// are no Records and Steps yet: the caller makes them so by the counts.
pub fn read_plan(
    sheet: &[u8],
    exprs: &mut [u8; 2048],
    steps: &mut [u8; 1024],
) -> Result<Counts, Refusal>
    ensures { PlanIs (plan_of sheet.now) exprs.new steps.new result × PlanHeld exprs.new steps.new result }
{
    if 16384 < sheet.len() {
        return Err(Refusal::LongSheet);
    }
    let lines = read_lines(sheet, exprs, steps)?;
    let exprs = ExprLines {
        bytes: exprs,
        count: lines.exprs,
    };
    let steps = StepLines {
        bytes: steps,
        count: lines.steps,
    };
    check_plan(exprs, steps)
}
