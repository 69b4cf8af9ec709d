// The call: a sheet of bytes in, its finished sheet or a refusal out.
#![tactic(auto)]

ghost use Rattle.std.specs.Prelude.{◌≡◌, ◌≤◌, length};
ghost use Rattle.plan.specs.Finished as plan;
ghost use Rattle.plan.specs.Finished.{answer_length};
ghost use Rattle.plan.specs.Refusals.{outcome_of};
ghost use Rattle.claims.specs.Demand1.{Demand1};
ghost use Rattle.engine.specs.Call.{call, finished_of, Reports};
ghost use Rattle.engine.specs.Demand3.{Demand3Kept};

use crate::read::{new_run, read_run};
use crate::report::Report;
use crate::run::finish_run;
use plan::answer::Finished;
use plan::refusal::Refusal;

pub mod read; // read.rt: from bytes to a run that is to be made
pub mod report; // report.rt: what a call reports for additions
pub mod run; // run.rt: from there to the finished sheet

// The call, for an addition: it answers also which sorts the run removed. The output goes on as a slice that is long enough, since an
// array of 16,384 bytes would be a narrower type than `put_finished` takes.
pub fn finish_and_report(sheet: &[u8], out: &mut [u8]) -> Result<Report, Refusal>
    ensures out_after { call (finished_of (outcome_of result)) out.new ≡ plan.finish sheet.now out.old }
    ensures reports { Reports (plan.run sheet.now) result }
{
    if out.len() < 16384 {
        return Err(Refusal::ShortOutput);
    }
    let mut run = new_run();
    read_run(sheet, &mut run)?;
    finish_run(&mut run, out)
}

// The definition decides the answer and every byte of the output. Demands 1 and 3 hold of every call, and what is answered fits.
pub fn finish(sheet: &[u8], out: &mut [u8]) -> Result<Finished, Refusal>
    ensures out_after { call (outcome_of result) out.new ≡ plan.finish sheet.now out.old }
    ensures demand_3_kept { Demand3Kept sheet.now out.new (outcome_of result) }
    ensures result_in_bounds { answer_length (outcome_of result) ≤ length out.old }
    ensures demand_1 { Demand1 sheet.now out.old }
{
    Ok(finish_and_report(sheet, out)?.finished)
}
