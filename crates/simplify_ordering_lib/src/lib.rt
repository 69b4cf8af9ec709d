// The calls for C and Rust to link: include/simplify_ordering.h has their prototypes.
#![tactic(auto)]

ghost use Rattle.std.specs.Prelude.{◌≡◌};
ghost use Rattle.plan.specs.Finished as plan;
ghost use Rattle.plan.specs.Finished.{answer_number, answer_length};
ghost use Rattle.marking.specs.Marking.{marked, mark_answer};
ghost use Rattle.formula.specs.Converted as converter;
ghost use Rattle.formula.specs.Converted.{convert};

use marking::answer::Mark;

// The refusal's number, 0 for a finished sheet; its length goes out through `length`, 0 for a refusal.
#[unsafe(no_mangle)]
pub extern "C" fn simplify_ordering_finish(sheet: &[u8], out: &mut [u8], length: &mut usize) -> u8
    ensures value { result ≡ answer_number (plan.finish sheet.now out.old).answer }
    ensures length_after { length.new ≡ answer_length (plan.finish sheet.now out.old).answer }
    ensures out_after { out.new ≡ (plan.finish sheet.now out.old).output }
{
    match engine::finish(sheet, out) {
        Ok(finished) => {
            *length = finished.length;
            0
        }
        Err(refusal) => {
            *length = 0;
            u8::from(refusal)
        }
    }
}

// 0 for a right paper, 255 for a wrong one, else the refusal's number.
#[unsafe(no_mangle)]
pub extern "C" fn simplify_ordering_mark(sheet: &[u8], paper: &[u8], out: &mut [u8]) -> u8
    ensures value { result ≡ mark_answer (marked sheet.now paper.now out.old).answer }
    ensures out_after { out.new ≡ (marked sheet.now paper.now out.old).output }
{
    match marking::mark(sheet, paper, out) {
        Ok(Mark::Right) => 0,
        Ok(Mark::Wrong) => 255,
        Err(refusal) => u8::from(refusal),
    }
}

// The refusal's number, 0 for a formula that is converted; the length of its lines goes out through `length`, 0 for a refusal.
#[unsafe(no_mangle)]
pub extern "C" fn simplify_ordering_formula(
    formula: &[u8],
    out: &mut [u8],
    length: &mut usize,
) -> u8
    ensures value { result ≡ converter.answer_number (convert formula.now out.old).answer }
    ensures length_after { length.new ≡ converter.answer_length (convert formula.now out.old).answer }
    ensures out_after { out.new ≡ (convert formula.now out.old).output }
{
    let answer = formula::convert(formula, out);
    *length = answer.unwrap_or(0);
    match answer {
        Ok(_) => 0,
        Err(refusal) => u8::from(refusal),
    }
}
