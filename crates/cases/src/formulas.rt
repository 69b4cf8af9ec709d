// A case of converting: the sheet is a formula, and the length of the output to lend is asked; what is told is the refusal's number, 0
// for none, and the lines. Every byte of the output is compared.
use crate::frame::{Case, two};
use crate::sheets::{OUTPUT, holds};

// Makes the call, and says whether the number, the length and the output are those of the case.
fn call_agrees(formula: &[u8], number: u8, lines: &[u8], out: &mut [u8]) -> bool {
    let (answered, length) = match formula::convert(formula, out) {
        Ok(length) => (0, length),
        Err(refusal) => (u8::from(refusal), 0),
    };
    answered == number && length == lines.len() && holds(out, lines)
}

pub(crate) fn agrees(case: Case<'_>) -> bool {
    let (&[high, low], [number, lines @ ..]) = (case.asked, case.told) else {
        return false;
    };
    let mut out = OUTPUT;
    let Some(lent) = out.get_mut(..two(high, low)) else {
        return false;
    };
    call_agrees(case.sheet, *number, lines, lent)
}
