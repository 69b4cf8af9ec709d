// What the lines refer to: children and inputs on earlier lines, expressions that are E lines, no Sink as input (refusal 7). What is asked of
// one line goes by bytes and its place, as what is lent out of it does (storage/src/lines.rt).
ghost use Rattle.std.specs.Prelude.{◌≡◌, List, ℕ, ◌≤◌, ◌<◌, ltb};
ghost use Rattle.plan.specs.Lists.{all?, numbered};
ghost use Rattle.plan.specs.Sheet.{Expr};
ghost use Rattle.plan.specs.Faults.{lines, children_earlier, inputs_earlier, references_right};
ghost use Rattle.storage.specs.Stored.{stored_expr, stored_step, stored_exprs, stored_steps};
ghost use Rattle.storage.specs.Lines.{children_count};
ghost use Rattle.reading.specs.Held.{StepHeld, both, before_no_sink};
ghost use Rattle.reading.specs.Lent.{exprs_in, steps_in, sheet_in};

use crate::held::{ExprLines, StepLines};
use plan::ir::IR;
use storage::lines::{children_of, exprs_of, inputs_of};
use storage::steps::is_kind;

fn all_below(numbers: &[u8], limit: usize) -> bool
    ensures { result ≡ all? (λ q. ltb q limit) numbers.now }
{
    numbers.iter().all(|q| usize::from(*q) < limit)
}

fn children_earlier(exprs: &[u8; 2048], i: usize) -> bool
    requires { (i < 128) × (children_count exprs.now i ≤ 8) }
    ensures { result ≡ children_earlier (i, stored_expr exprs.now i) }
{
    all_below(children_of(exprs, i), i)
}

pub fn all_children_earlier(exprs: ExprLines<'_>) -> bool
    ensures { result ≡ all? children_earlier (numbered 0 (exprs_in exprs.entry)) }
{
    (0..exprs.count).all(|i| children_earlier(exprs.bytes, i))
}

// Is the m-th line before the i-th, and no Sink?
fn before_no_sink(steps: &[u8; 1024], i: usize, m: usize) -> bool
    requires { i ≤ 32 }
    ensures { result ≡ before_no_sink steps.now i m }
{
    m < i && !is_kind(steps, m, IR::Sink)
}

// The inputs stand on earlier lines, and none is a Sink.
fn inputs_earlier(steps: &[u8; 1024], i: usize) -> bool
    requires { StepHeld steps.now i }
    ensures { result ≡ all? (before_no_sink steps.now i) (stored_step steps.now i).inputs }
{
    inputs_of(steps, i)
        .iter()
        .all(|m| before_no_sink(steps, i, usize::from(*m)))
}

pub fn all_inputs_earlier(steps: StepLines<'_>) -> bool
    ensures { let ss = steps_in steps.entry in
        (es : List Expr) → result ≡ all? (inputs_earlier (record { exprs = es; steps = ss })) (numbered 0 ss) }
{
    (0..steps.count).all(|i| inputs_earlier(steps.bytes, i))
}

// The expressions are E lines, of which there are `count`.
fn exprs_there(steps: &[u8; 1024], i: usize, count: usize) -> bool
    requires { StepHeld steps.now i }
    ensures { result ≡ all? (λ q. ltb q count) (both (stored_step steps.now i)) }
{
    all_below(exprs_of(steps, i), count)
}

pub fn all_exprs_there(steps: StepLines<'_>, count: usize) -> bool
    ensures { result ≡ all? (λ (i, s). all? (λ q. ltb q count) (both s)) (numbered 0 (steps_in steps.entry)) }
{
    (0..steps.count).all(|i| exprs_there(steps.bytes, i, count))
}

pub fn references_right(exprs: ExprLines<'_>, steps: StepLines<'_>) -> bool
    ensures { let sh = sheet_in exprs.entry steps.entry in result ≡ all? (references_right sh) (lines sh) }
{
    if !all_children_earlier(exprs) {
        return false;
    }
    if !all_inputs_earlier(steps) {
        return false;
    }
    all_exprs_there(steps, exprs.count)
}
