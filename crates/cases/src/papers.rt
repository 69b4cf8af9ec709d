// A case of marking: the length of the output to lend and the paper are asked; what is told is how many bytes the output then
// holds, and the line that is printed for the mark.
use crate::frame::{Case, two};
use crate::sheets::{FILLER, OUTPUT};
use marking::line::put_answer;

// How many bytes stand before the first that is as it was.
fn written(out: &[u8]) -> usize {
    let kept = out.iter().position(|byte| *byte == FILLER);
    kept.unwrap_or(out.len())
}

// Makes the call, and says whether the count and the line are these.
fn call_agrees(sheet: &[u8], paper: &[u8], count: usize, line: &[u8], out: &mut [u8]) -> bool {
    let answer = marking::mark(sheet, paper, out);
    let mut printed = [0; 6];
    let n = put_answer(&mut printed, answer);
    written(out) == count && &printed[..n] == line
}

pub(crate) fn agrees(case: Case<'_>) -> bool {
    let ([a, b, paper @ ..], [c, d, line @ ..]) = (case.asked, case.told) else {
        return false;
    };
    let mut out = OUTPUT;
    let Some(lent) = out.get_mut(..two(*a, *b)) else {
        return false;
    };
    call_agrees(case.sheet, paper, two(*c, *d), line, lent)
}
