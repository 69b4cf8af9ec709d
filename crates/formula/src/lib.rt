// The converter: a formula of bytes in, its E lines or a refusal out.
#![tactic(auto)]

ghost use Rattle.std.specs.Prelude.{◌≡◌, ◌≤◌, length};
ghost use Rattle.formula.specs.Converted.{answer_length, call, convert, outcome_of};
ghost use Rattle.formula.specs.Language.{Language};
ghost use Rattle.formula.specs.OnASheet.{OnASheet};

use crate::decide::decide;
use crate::items::{Item, Kind, PLACES};
use crate::refusal::Refusal;
use crate::writer::write;

pub mod decide; // decide.rt: the first pass, which decides
pub mod items; // items.rt: what the first pass notes for the second
pub mod line; // line.rt: one line
pub mod refusal; // refusal.rt: why a formula is turned back
pub mod seen; // seen.rt: what the first pass keeps of what it has read
pub mod token; // token.rt: what a byte of a formula is
pub mod writer; // writer.rt: the second pass, which writes

// The definition decides the answer, the length of the lines, and every byte of the output. What is claimed of it holds of every call: it
// takes just the language, and what it takes makes a sheet that is accepted.
pub fn convert(formula: &[u8], out: &mut [u8]) -> Result<usize, Refusal>
    ensures out_after { call (outcome_of result) out.new ≡ convert formula.now out.old }
    ensures language { Language formula.now out.old }
    ensures on_a_sheet { OnASheet }
    ensures result_in_bounds { answer_length (outcome_of result) ≤ length out.old }
{
    if out.len() < 16384 {
        return Err(Refusal::ShortOutput);
    }
    if formula.len() > 16384 {
        return Err(Refusal::LongFormula);
    }
    let mut places = [Item {
        depth: 0,
        kind: Kind::Letter,
    }; PLACES];
    let count = decide(formula, &mut places)?;
    Ok(write(&places[..count], out))
}
