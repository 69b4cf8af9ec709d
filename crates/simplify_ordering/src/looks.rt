// The looks of a visit: the lists of its step, with GroupBy's Implodes.
ghost use Rattle.std.specs.Prelude.{◌≡◌, ℕ, ◌<◌};
ghost use mathlib.Core.List.{Memᴰ};
ghost use Rattle.plan.specs.Sheet.{step_at};
ghost use Rattle.plan.specs.Visit.{looks_of, options_of};
ghost use Rattle.storage.specs.Entries.{list_of};
ghost use Rattle.storage.specs.Held.{arena_in, steps_in};
ghost use Rattle.simplify_ordering.specs.Looks.{ListsAsk, ListsGive, Listed, LooksGive};

use crate::implode::append_implodes;
use expr::projected::{expr_order_simplifier, simplify_projected_exprs};
use node_rules::rules::allow_deordering_top;
use plan::ir::IR;
use plan::orders::ObservableOrders;
use plan::rules::{Around, Observable, Options};
use plan::tally::Tally;
use storage::entries::Entries;
use storage::stored::{Arena, Steps};
use tally::count_looks;

const NOTHING: Observable = Observable {
    exprs: ObservableOrders::EMPTY,
    aggs: ObservableOrders::EMPTY,
    internal: ObservableOrders::EMPTY,
};

// The n2 list, then the n3 list, with one cache and one observed set; nothing is set up for two empty lists.
fn look_at_lists(
    arena: &mut Arena,
    tally: &mut Tally,
    exprs: Entries,
    aggs: Entries,
    allow: bool,
) -> Observable
    requires { ListsAsk arena.old tally.old (list_of exprs) (list_of aggs) exprs aggs allow }
    ensures { ListsGive (arena_in arena.old) tally.old (list_of exprs) (list_of aggs) allow (arena_in arena.new) tally.new result }
{
    if (exprs.count == 0) & (aggs.count == 0) {
        return NOTHING;
    }
    let mut cache = [None; 128];
    let new = expr_order_simplifier();
    let mid = simplify_projected_exprs(arena, &mut cache, new, exprs, allow);
    let end = simplify_projected_exprs(arena, &mut cache, mid, aggs, false);
    count_looks(tally, end.looks());
    Observable {
        exprs: mid.answer(),
        aggs: end.answer(),
        internal: end.observed(),
    }
}

// The looks at the lists of step i, whose options are s and whose edges are e. GroupBy's Implodes come first. That the n3 list's entries are
// earlier lines is asked here and handed on: as a fact of a run it would be kept by each change of a step, and visits alone need it.
pub fn looks_of(
    steps: &mut Steps,
    i: usize,
    arena: &mut Arena,
    tally: &mut Tally,
    s: Options,
    e: Around,
) -> Observable
    requires step { i < steps.old.count }
    requires its_options { s ≡ options_of (step_at (steps_in steps.old) i) }
    requires earlier { (q : ℕ) → Memᴰ q (step_at (steps_in steps.old) i).aggs → q < arena.old.records.count }
    requires listed { Listed (looks_of (step_at (steps_in steps.old) i) e (arena_in arena.old) tally.old) }
    ensures looked { LooksGive (looks_of (step_at (steps_in steps.old) i) e (arena_in arena.old) tally.old) i (steps_in steps.old) (steps_in steps.new) (arena_in arena.new) tally.new result }
    ensures count { steps.new.count ≡ steps.old.count }
{
    if s.kind == IR::GroupBy {
        append_implodes(steps, i, arena);
    }
    let exprs = steps.exprs(i);
    let aggs = steps.aggs(i);
    look_at_lists(arena, tally, exprs, aggs, allow_deordering_top(s, e))
}
