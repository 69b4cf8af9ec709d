// A case of reading: nothing else is asked; what is told is the refusal's number, or the counts of E and P lines.
use crate::frame::Case;
use reading::read_plan;

pub(crate) fn agrees(case: Case<'_>) -> bool {
    let mut exprs = [0; 2048];
    let mut steps = [0; 1024];
    let answer = read_plan(case.sheet, &mut exprs, &mut steps);
    let right = match (answer, case.told) {
        (Ok(counts), &[exprs, steps]) => {
            counts.exprs == usize::from(exprs) && counts.steps == usize::from(steps)
        }
        (Err(refusal), &[number]) => u8::from(refusal) == number,
        _ => false,
    };
    right && case.asked.is_empty()
}
