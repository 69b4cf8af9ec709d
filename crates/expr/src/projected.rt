// A list of projected expressions, and the state that a visit starts with.
ghost use Rattle.storage.specs.Held.{SameRecords};
ghost use Rattle.expr.specs.State.{state_in};
ghost use Rattle.expr.specs.Projected.{Started, ListAsks, ListGives};

use crate::eos::Eos;
use crate::look::look;
use crate::seen::Seen;
use plan::choice::pick;
use plan::orders::ObservableOrders;
use storage::entries::Entries;
use storage::stored::Arena;

// expr_order_simplifier!, beside a revisit_cache without entries.
pub fn expr_order_simplifier() -> Eos
    ensures { Started result }
{
    Eos::new()
}

pub fn simplify_projected_exprs(
    arena: &mut Arena,
    cache: &mut [Option<ObservableOrders>; 128],
    s: Eos,
    exprs: Entries,
    allow_deordering_top: bool,
) -> Eos
    requires { ListAsks arena.old.records.bytes arena.old.records.count (state_in arena.old cache.old s) exprs allow_deordering_top }
    ensures looked { ListGives arena.old.records.bytes arena.old.records.count (state_in arena.old cache.old s) exprs allow_deordering_top (state_in arena.new cache.new result) }
    ensures records { SameRecords arena.old.records arena.new.records }
{
    let mut t = s;
    let mut seen = Seen::new();
    for (i, node) in exprs.as_slice().iter().enumerate() {
        t = look(arena, cache, t, usize::from(*node), false);
        seen = seen.add(t.answer(), *node, i as u8);
    }
    let acc = seen.acc;
    let so_far = t.observed();
    let mixed = pick(acc.saw_mixed_inputs, acc.acc, ObservableOrders::EMPTY);
    let observing = t.with_observed(so_far.union(mixed));
    if (acc.num_ordered_inputs == 1) & allow_deordering_top {
        let node = acc.last_ordered_node as usize;
        return look(arena, cache, observing, node, true);
    }
    observing.with_answer(acc.acc)
}
