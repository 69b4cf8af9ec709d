// Converts the formula on standard input: its E lines, or the refusal's number, on standard output.
#![tactic(auto)]

ghost use Rattle.std.specs.Prelude.{◌≡◌, ◌≢◌, ◌≤◌, ℕ, List, [], ◌∷◌, ◌++◌, length};
ghost use Rattle.formula.specs.Converted.{answer_length, outcome_of};

use formula::line::put_refusal;
use formula::refusal::Refusal;
use streams::{has_argument, read_input, write_out};

// The formula of an input: one line end at its end is not part of it. A second one is, and makes it no formula.
fn formula_of(input: &[u8]) -> &[u8]
    ensures ended { (w : List ℕ) → input.now ≡ w ++ (10 ∷ []) → result.now ≡ w }
    ensures unended { ((w : List ℕ) → input.now ≢ w ++ (10 ∷ [])) → result.now ≡ input.now }
{
    input.strip_suffix(b"\n").unwrap_or(input)
}

// Did all of the answer go out?
fn put_answer(rt: &(impl Print + Eprint), answer: Result<usize, Refusal>, out: &[u8]) -> bool
    requires { answer_length (outcome_of answer) ≤ length out.now }
{
    match answer {
        Ok(length) => write_out(rt, &out[..length]),
        Err(refusal) => {
            let mut line = [0; 6];
            let n = put_refusal(&mut line, refusal);
            write_out(rt, &line[..n])
        }
    }
}

// A formula of more than 16,384 bytes is refused. With its line end one of just so many has 16,385, and one byte more is read: else a
// line end that came last could not be told from one behind which the input goes on, and would be taken off a longer formula.
fn main(rt: HostRuntime) {
    if has_argument(&rt, 1) {
        let _ = eprintln!(rt; "usage: formula < FORMULA");
        return;
    }
    let mut input = [0; 16386];
    let Some(input) = read_input(&rt, "standard input", &mut rt.stdin(), &mut input) else {
        return;
    };
    // a buffer of its own: nothing here allocates
    let mut out = [0; 16384];
    let answer = formula::convert(formula_of(input), &mut out);
    put_answer(&rt, answer, &out);
}
