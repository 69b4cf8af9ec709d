// A case of the whole call: the length of the output to lend is asked; what is told is the refusal's number, 0 for none, and
// the finished sheet. Every byte of the output is compared.
use crate::frame::{Case, two};
use plan::answer::Finished;
use plan::refusal::Refusal;
use std::io;

// The byte that stands everywhere in an output before the call; no finished sheet has it, and no line.
pub const FILLER: u8 = 170;

// An output of more bytes than any case asks for.
pub const OUTPUT: [u8; 20000] = [FILLER; 20000];

// Is every byte as it was before the call?
fn untouched(out: &[u8]) -> bool {
    out.iter().all(|byte| *byte == FILLER)
}

// Does the output hold the text, and behind it what it held before?
pub(crate) fn holds(out: &[u8], text: &[u8]) -> bool {
    out.strip_prefix(text).is_some_and(untouched)
}

// The answer's number, 0 for a finished sheet.
fn number_of(answer: Result<Finished, Refusal>) -> u8 {
    match answer {
        Ok(_) => 0,
        Err(refusal) => u8::from(refusal),
    }
}

// Makes the call, counts its answer, and says whether all is as in the Rust.
fn call_agrees(
    sheet: &[u8],
    number: u8,
    finished: &[u8],
    out: &mut [u8],
    answers: &mut [u64; 256],
) -> bool {
    let answer = engine::finish(sheet, out);
    let answered = number_of(answer);
    let count = &mut answers[usize::from(answered)];
    *count = count.saturating_add(1);
    let length = answer.map_or(0, |f| f.length);
    answered == number && length == finished.len() && holds(out, finished)
}

pub(crate) fn agrees(case: Case<'_>, answers: &mut [u64; 256]) -> bool {
    let (&[high, low], [number, finished @ ..]) = (case.asked, case.told) else {
        return false;
    };
    let mut out = OUTPUT;
    let Some(lent) = out.get_mut(..two(high, low)) else {
        return false;
    };
    call_agrees(case.sheet, *number, finished, lent, answers)
}

// A number that was not answered is passed over.
pub(crate) fn report_answers(rt: &impl Print, answers: &[u64; 256]) -> io::Result<()> {
    let finished = answers[0];
    println!(rt; "finished: {finished}")?;
    for (number, count) in answers.iter().enumerate().skip(1) {
        if *count != 0 {
            println!(rt; "refused by {number}: {count}")?;
        }
    }
    Ok(())
}
