// The line that is printed for a mark.
ghost use Rattle.std.specs.Prelude.{◌≤◌, length};
ghost use Rattle.plan.specs.Refusals.{outcome_of};
ghost use Rattle.writing.specs.Wrote.{Wrote};
ghost use Rattle.marking.specs.Marking.{mark_line, outcome_by_number};

use crate::answer::Mark;
use plan::refusal::Refusal;
use writing::lines::put_refusal;
use writing::words::put_word;

// The line at the front of what is lent, byte 10 with it; its length. It takes a refusal by its number, whatever that is.
pub fn put_mark(out: &mut [u8], answer: Result<Mark, u8>) -> usize
    requires { 6 ≤ length out.old }
    ensures { Wrote (mark_line (outcome_by_number answer)) out.old out.new result × (result ≤ 6) }
{
    match answer {
        Ok(Mark::Right) => put_word(out, b"right\n"),
        Ok(Mark::Wrong) => put_word(out, b"wrong\n"),
        Err(number) => put_refusal(out, number),
    }
}

// The line of what `mark` answers, in the same way.
pub fn put_answer(out: &mut [u8], answer: Result<Mark, Refusal>) -> usize
    requires { 6 ≤ length out.old }
    ensures { Wrote (mark_line (outcome_of answer)) out.old out.new result × (result ≤ 6) }
{
    match answer {
        Ok(mark) => put_mark(out, Ok(mark)),
        Err(refusal) => put_mark(out, Err(u8::from(refusal))),
    }
}
