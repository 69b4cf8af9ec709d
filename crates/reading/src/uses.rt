// How often the lines are named (refusals 8 and 12), and the ids of Cache lines (13).
ghost use Rattle.std.specs.Prelude.{MatchOption, ⊤, ◌≡◌, List, map, ℕ, ◌≤◌, ◌<◌};
ghost use Rattle.plan.specs.Lists.{all?, numbered};
ghost use Rattle.plan.specs.Faults.{cache_ids, named, use_right, use_number, first_fault};
ghost use Rattle.plan.specs.Refusals.{refusal_number, fault_number};
ghost use Rattle.storage.specs.Stored.{stored_step, stored_exprs, stored_steps};
ghost use Rattle.reading.specs.Lent.{exprs_in, steps_in, sheet_in};
ghost use Rattle.reading.specs.Uses.{named_each, all_children, all_both, uses_fault, exprs_fault, steps_fault, ids_once, id_of, expr_fault_by, step_fault_by, first_number, id_once_by};

use crate::held::{ExprLines, StepLines};
use crate::namings::Namings;
use plan::ir::IR;
use plan::refusal::Refusal;
use storage::lines::{children_of, exprs_of, inputs_of};
use storage::steps::{cache_id, is_kind, kind_of};

// The passes from count_children to count_ids are loops of three lines, each over lists of its own. One function that took the list as a
// closure would have the closure's law in its contract, and that is longer than the loops.

// The children of the E lines.
fn count_children(namings: &mut Namings, exprs: ExprLines<'_>)
    ensures { namings.new ≡ named_each namings.old (all_children (exprs_in exprs.entry)) }
{
    for i in 0..exprs.count {
        namings.count_all(children_of(exprs.bytes, i));
    }
}

// The expressions of the P lines.
fn count_expressions(namings: &mut Namings, steps: StepLines<'_>)
    ensures { namings.new ≡ named_each namings.old (all_both (steps_in steps.entry)) }
{
    for i in 0..steps.count {
        namings.count_all(exprs_of(steps.bytes, i));
    }
}

// The inputs of the P lines.
fn count_inputs(namings: &mut Namings, steps: StepLines<'_>)
    ensures { namings.new ≡ named_each namings.old (named (steps_in steps.entry)) }
{
    for i in 0..steps.count {
        namings.count_all(inputs_of(steps.bytes, i));
    }
}

// The id of the i-th line, if it is a Cache. Bytes, with a place or a number, from here to ids_differ: they ask only that the lines are few,
// which is less than StepLines does.
fn count_id(namings: &mut Namings, steps: &[u8; 1024], i: usize)
    requires { i < 32 }
    ensures { namings.new ≡ named_each namings.old (id_of (stored_step steps.now i)) }
{
    if is_kind(steps, i, IR::Cache) {
        namings.count(cache_id(steps, i));
    }
}

// The ids of the Cache lines among the first n P lines.
fn count_ids(namings: &mut Namings, steps: &[u8; 1024], n: usize)
    requires { n ≤ 32 }
    ensures { namings.new ≡ named_each namings.old (cache_ids (stored_steps steps.now n)) }
{
    for i in 0..n {
        count_id(namings, steps, i);
    }
}

// What is wrong with a line that is not named rightly: nothing names it, or it is named more than once.
fn misuse(count: u8) -> Refusal
    ensures { refusal_number result ≡ use_number count }
{
    if count == 0 {
        return Refusal::Unused;
    }
    Refusal::UsedTwice
}

// The refusal by the first line that is not named rightly.
fn refuse_first(namings: &Namings, wrong: Option<usize>) -> Result<(), Refusal>
    requires { MatchOption wrong ⊤ (λ i. i < 256) }
    ensures { fault_number result ≡ first_number namings.now wrong }
{
    match wrong {
        Some(i) => Err(misuse(namings.times(i))),
        None => Ok(()),
    }
}

// Of n E lines: each is named once.
fn first_expr_fault(namings: &Namings, n: usize) -> Result<(), Refusal>
    requires { n ≤ 256 }
    ensures { (es : List ℕ) → fault_number result ≡ first_fault (map (expr_fault_by namings.now) (numbered 0 (stored_exprs es n))) }
{
    let wrong = (0..n).find(|i| namings.times(*i) != 1);
    refuse_first(namings, wrong)
}

// A Sink need not be named, a Cache may be more than once.
fn use_right(kind: IR, count: u8) -> bool
    ensures { result ≡ use_right kind count }
{
    kind == IR::Sink || (1 <= count && (kind == IR::Cache || count <= 1))
}

fn first_step_fault(namings: &Namings, steps: StepLines<'_>) -> Result<(), Refusal>
    ensures { fault_number result ≡ first_fault (map (step_fault_by namings.now) (numbered 0 (steps_in steps.entry))) }
{
    let wrong = (0..steps.count).find(|i| !use_right(kind_of(steps.bytes, *i), namings.times(*i)));
    refuse_first(namings, wrong)
}

// The id of the i-th line, if it is a Cache, stands once among the ids.
fn id_once(namings: &Namings, steps: &[u8; 1024], i: usize) -> bool
    requires { i < 32 }
    ensures { result ≡ id_once_by namings.now (i, stored_step steps.now i) }
{
    !is_kind(steps, i, IR::Cache) || namings.times(usize::from(cache_id(steps, i))) == 1
}

fn all_ids_once(namings: &Namings, steps: &[u8; 1024], n: usize) -> bool
    requires { n ≤ 32 }
    ensures { result ≡ all? (id_once_by namings.now) (numbered 0 (stored_steps steps.now n)) }
{
    (0..n).all(|i| id_once(namings, steps, i))
}

// The pass over the E lines.
fn exprs_fault(exprs: ExprLines<'_>, steps: StepLines<'_>) -> Result<(), Refusal>
    ensures { fault_number result ≡ exprs_fault (sheet_in exprs.entry steps.entry) }
{
    let mut namings = Namings::new();
    count_children(&mut namings, exprs);
    count_expressions(&mut namings, steps);
    first_expr_fault(&namings, exprs.count)
}

// The pass over the P lines. Other lists are counted than for the E lines, and other lines tested: the two have only the counts' making in
// common, so one function for both would be handed all that differs.
fn steps_fault(steps: StepLines<'_>) -> Result<(), Refusal>
    ensures { fault_number result ≡ steps_fault (steps_in steps.entry) }
{
    let mut namings = Namings::new();
    count_inputs(&mut namings, steps);
    first_step_fault(&namings, steps)
}

// The whole pass, E lines before P lines: 8 or 12 by the first line at fault.
pub fn uses_fault(exprs: ExprLines<'_>, steps: StepLines<'_>) -> Result<(), Refusal>
    ensures { fault_number result ≡ uses_fault (sheet_in exprs.entry steps.entry) }
{
    exprs_fault(exprs, steps)?;
    steps_fault(steps)
}

// No two Cache lines have one id.
pub fn ids_differ(steps: &[u8; 1024], n: usize) -> bool
    requires { n ≤ 32 }
    ensures { result ≡ ids_once (stored_steps steps.now n) }
{
    let mut namings = Namings::new();
    count_ids(&mut namings, steps, n);
    all_ids_once(&namings, steps, n)
}
