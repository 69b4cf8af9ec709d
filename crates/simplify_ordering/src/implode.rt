// GroupBy puts an Implode over each agg that is no scalar.
ghost use Rattle.std.specs.Prelude.{◌≡◌, ℕ, ◌+◌, ◌≤◌, ◌<◌, length, get_or, set};
ghost use mathlib.Core.List.{[], ◌∷◌, ◌++◌, Memᴰ};
ghost use Rattle.plan.specs.Sheet.{expr_at, step_at};
ghost use Rattle.plan.specs.Visit.{implode, imploded, implode_over, with_aggs};
ghost use Rattle.storage.specs.Steps.{with_agg};
ghost use Rattle.storage.specs.Held.{arena_in, steps_in};

use storage::exprs::is_scalar;
use storage::records::store_implode;
use storage::stored::{Arena, Steps};

// Is line q's record a scalar? is_scalar_ae
fn is_scalar_ae(arena: &Arena, q: u8) -> bool
    requires { q < arena.now.records.count }
    ensures { result ≡ (expr_at (arena_in arena.now) q).scalar }
{
    is_scalar(&arena.records.bytes, arena.lines.holds[usize::from(q)])
}

// The arena's next record: an Implode over line q that maintains order.
pub fn append_implode(arena: &mut Arena, q: u8)
    requires room { arena.old.records.count < 128 }
    requires earlier { q < arena.old.records.count }
    ensures appended { arena_in arena.new ≡ arena_in arena.old ++ (implode_over q ∷ []) }
    ensures one_more { arena.new.records.count ≡ arena.old.records.count + 1 }
{
    let records = &mut arena.records;
    let n = records.count;
    store_implode(&mut records.bytes, n, q);
    records.count = n + 1;
    let lines = &mut arena.lines;
    lines.holds[n] = n as u8;
    lines.off[n] = false;
}

// Entry k of the n3 list of step i, which is q: an Implode takes its place, if it is no scalar.
fn implode_agg(steps: &mut Steps, i: usize, k: usize, arena: &mut Arena, q: u8)
    requires step { i < steps.old.count }
    requires entry { k < length (step_at (steps_in steps.old) i).aggs }
    requires is_entry { q ≡ get_or (step_at (steps_in steps.old) i).aggs k 0 }
    requires earlier { q < arena.old.records.count }
    requires room { length (implode q (arena_in arena.old)).1 ≤ 128 }
    ensures arena { arena_in arena.new ≡ (implode q (arena_in arena.old)).1 }
    ensures count { steps.new.count ≡ steps.old.count }
    ensures steps { steps_in steps.new ≡ with_agg i k (implode q (arena_in arena.old)).0 (steps_in steps.old) }
{
    if is_scalar_ae(arena, q) {
        return;
    }
    let n = arena.records.count as u8;
    append_implode(arena, q);
    steps.store_agg(i, k, n);
}

// An Implode over each entry of step i's n3 list that is no scalar. That the entries are earlier lines is asked, as looks.rt says.
pub fn append_implodes(steps: &mut Steps, i: usize, arena: &mut Arena)
    requires step { i < steps.old.count }
    requires earlier { (q : ℕ) → Memᴰ q (step_at (steps_in steps.old) i).aggs → q < arena.old.records.count }
    requires room { length (imploded (step_at (steps_in steps.old) i).aggs (arena_in arena.old)).1 ≤ 128 }
    ensures arena { arena_in arena.new ≡ (imploded (step_at (steps_in steps.old) i).aggs (arena_in arena.old)).1 }
    ensures count { steps.new.count ≡ steps.old.count }
    ensures steps { steps_in steps.new ≡ set (steps_in steps.old) i (with_aggs (imploded (step_at (steps_in steps.old) i).aggs (arena_in arena.old)).0 (step_at (steps_in steps.old) i)) }
{
    let aggs = steps.aggs(i);
    for (k, q) in aggs.as_slice().iter().enumerate() {
        implode_agg(steps, i, k, arena, *q);
    }
}
