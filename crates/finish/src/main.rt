// Finishes the sheet on standard input: the finished sheet, or the refusal's number, on standard output.
#![tactic(auto)]

ghost use Rattle.std.specs.Prelude.{◌≤◌, length};
ghost use Rattle.plan.specs.Finished.{answer_length};
ghost use Rattle.plan.specs.Refusals.{outcome_of};

use plan::answer::Finished;
use plan::refusal::Refusal;
use streams::{has_argument, read_input, write_out};
use writing::lines::put_refusal;

// Did all of the answer go out?
fn put_answer(rt: &(impl Print + Eprint), answer: Result<Finished, Refusal>, out: &[u8]) -> bool
    requires { answer_length (outcome_of answer) ≤ length out.now }
{
    match answer {
        Ok(finished) => write_out(rt, &out[..finished.length]),
        Err(refusal) => {
            let mut line = [0; 6];
            let n = put_refusal(&mut line, u8::from(refusal));
            write_out(rt, &line[..n])
        }
    }
}

// A sheet of more than 16,384 bytes is refused, so one byte more is all that has to be read of it.
fn main(rt: HostRuntime) {
    if has_argument(&rt, 1) {
        let _ = eprintln!(rt; "usage: finish < SHEET");
        return;
    }
    let mut sheet = [0; 16385];
    let Some(sheet) = read_input(&rt, "standard input", &mut rt.stdin(), &mut sheet) else {
        return;
    };
    // a buffer of its own: nothing here allocates
    let mut out = [0; 16384];
    let answer = engine::finish(sheet, &mut out);
    put_answer(&rt, answer, &out);
}
