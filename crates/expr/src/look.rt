// A look at a record, and along its children: `rec` of expr.rs.
ghost use Rattle.std.specs.Prelude.{◌≡◌, ◌&&◌, eqb, if◌then◌else◌};
ghost use Rattle.plan.specs.Kinds.{same_aexpr};
ghost use Rattle.plan.specs.Lists.{yes?, all?};
ghost use Rattle.plan.specs.Orders.{is_empty};
ghost use Rattle.plan.specs.Look.{NO_DEORDER};
ghost use Rattle.plan.specs.declared.aexpr.AExpr.{AExpr};
ghost use Rattle.expr.specs.Tables.{after_of};
ghost use Rattle.storage.specs.Entries.{list_of, Shaped};
ghost use Rattle.storage.specs.Exprs.{record_of};
ghost use Rattle.storage.specs.Held.{SameRecords};
ghost use Rattle.expr.specs.State.{state, state_in, preserves, is_replaced_line, Readable};
ghost use Rattle.expr.specs.Eos.{own_of, with_field};
ghost use Rattle.expr.specs.Contract.{walked, Ended, LookAsks, LookGives, AgainAsks, AgainGives, EndAsks, AlongAsks, AlongGives};

use crate::after::{After, leaf};
use crate::before::before_of;
use crate::eos::Eos;
use crate::record::child_of;
use crate::seen::Seen;
use plan::aexpr::AExpr;
use plan::choice::pick;
use plan::looks::Before;
use plan::orders::ObservableOrders;
use storage::entries::Entries;
use storage::exprs::{ExprRecord, is_length_preserving};
use storage::stored::{Arena, Lines};

#[derive(Clone, Copy)]
pub struct Walk {
    pub state: Eos,
    pub seen: Seen,
}

// Do all of them preserve length?
fn length_preserving(arena: &Arena, children: Entries) -> bool
    requires { Shaped children × Readable arena.now.lines.holds (list_of children) }
    ensures { result ≡ all? (preserves arena.now.records.bytes arena.now.lines.holds) (list_of children) }
{
    let recs = &arena.records.bytes;
    let line = &arena.lines.holds;
    children
        .as_slice()
        .iter()
        .all(|c| is_length_preserving(recs, line[*c as usize]))
}

// Does the first child's record take the place of e?
fn is_replaced(arena: &Arena, e: ExprRecord, allow: bool) -> bool
    requires { Shaped e.children × Readable arena.now.lines.holds (record_of e).children }
    ensures { result ≡ is_replaced_line arena.now.records.bytes arena.now.lines.holds (record_of e) allow }
{
    allow
        && (e.kind == AExpr::Sort
            || e.kind == AExpr::SortBy && length_preserving(arena, e.children))
}

// An Implode over nothing ordered no longer maintains order.
fn loses_order(e: ExprRecord, first: ObservableOrders) -> bool
    ensures { result ≡ (same_aexpr e.kind AExpr.Implode && yes? e.option && is_empty first) }
{
    (e.kind == AExpr::Implode) & (e.option == 1) & first.is_empty()
}

// The state after the i-th child's answer: the fields of a StructEval have the order of its first child.
#[inline(always)]
fn enter_struct(s: Eos, kind: AExpr, i: u8) -> Eos
    ensures { own_of result ≡ with_field (if eqb i 0 && same_aexpr kind AExpr.StructEval then (own_of s).answer else (own_of s).field) (own_of s) }
{
    if (i == 0) & (kind == AExpr::StructEval) {
        return s.with_field(s.answer());
    }
    s
}

// Is de-ordering allowed in the i-th look? Only the first has a mode of its own.
#[inline(always)]
fn mode(b: Before, i: u8) -> bool
    ensures { result ≡ (if eqb i 0 then b.first else NO_DEORDER) }
{
    (i == 0) & b.first
}

// The end of a look at p, whose record was e and whose answer s has: field the struct's field before it, first the first
// child's answer.
fn look_ended(
    lines: &mut Lines,
    cache: &mut [Option<ObservableOrders>; 128],
    s: Eos,
    p: usize,
    e: ExprRecord,
    v: After,
    field: ObservableOrders,
    first: ObservableOrders,
) -> Eos
    requires { EndAsks cache.old p }
    ensures { Ended (state lines.old.holds lines.old.off cache.old s) p (record_of e) (after_of v) field first (state lines.new.holds lines.new.off cache.new result) }
{
    let was = lines.off[p];
    let entry = cache[p];
    let before = s.observed();
    let observed = before.union(v.observes);
    lines.off[p] = was | loses_order(e, first);
    cache[p] = pick(v.caches, Some(s.answer()), entry);
    let t = s.with_observed(observed);
    t.with_field(field)
}

// A look at p. allow: is de-ordering allowed?
// The cache and the number go beside the arena: the cache lasts for one visit, so that a struct of the two would be made for each, of two
// lent things; and the number goes by value, since a struct of its four fields, tried on 2026-11-26, took 34.3 ns for 27.2 on the
// longest chain of looks.
#[cycle(look_look_again_look_along)]
pub fn look(
    arena: &mut Arena,
    cache: &mut [Option<ObservableOrders>; 128],
    s: Eos,
    p: usize,
    allow: bool,
) -> Eos
    requires { LookAsks arena.old.records.bytes arena.old.records.count (state_in arena.old cache.old s) p allow }
    ensures looked { LookGives arena.old.records.bytes arena.old.records.count (state_in arena.old cache.old s) p allow (state_in arena.new cache.new result) }
    ensures records { SameRecords arena.old.records arena.new.records }
{
    let t = s.looked();
    let field = t.field();
    let found = &*arena;
    let l = found.lines.holds[p];
    let at = (l as usize) * 16;
    let base = &found.records.bytes;
    if base[at + 12] == 0 {
        if let Some(answer) = leaf(AExpr::of_number(base[at]), base[at + 1] == 1, field) {
            return t.with_answer(answer);
        }
    }
    let entry = cache[p];
    let e = found.records.expr(l, found.lines.off[p]);
    let b = before_of(e, allow);
    let hit = pick(b.checks, entry, None);
    if let Some(answer) = hit {
        return t.with_answer(answer);
    }
    if is_replaced(found, e, allow) {
        let c = e.children.first() as usize;
        let l1 = found.lines.holds[c];
        let off1 = found.lines.off[c];
        let lines = &mut arena.lines;
        lines.holds[p] = l1;
        lines.off[p] = off1;
        return look(arena, cache, t, p, allow);
    }
    let w = look_along(arena, cache, t, e, b);
    let seen = w.seen;
    let v = After::of(e, allow, field, seen);
    let node = seen.acc.last_ordered_node;
    let u = look_again(arena, cache, w.state, v, node);
    look_ended(&mut arena.lines, cache, u, p, e, v, field, seen.first)
}

// The single ordered child once more, if v says so: with the answer of the record that v is of.
#[cycle(look_look_again_look_along)]
fn look_again(
    arena: &mut Arena,
    cache: &mut [Option<ObservableOrders>; 128],
    s: Eos,
    v: After,
    node: u8,
) -> Eos
    requires { AgainAsks arena.old.records.bytes arena.old.records.count (state_in arena.old cache.old s) v node }
    ensures looked { AgainGives arena.old.records.bytes arena.old.records.count (state_in arena.old cache.old s) v node (state_in arena.new cache.new result) }
    ensures records { SameRecords arena.old.records arena.new.records }
{
    if v.again {
        let again = look(arena, cache, s, node as usize, true);
        let output = v.answer_again;
        return again.with_answer(output.of(v.answer, again.answer()));
    }
    s.with_answer(v.answer)
}

// A look along the children of e. What its loop calls is inlined first, so that LLVM takes the first child out of the loop: a look at a
// record of one child is a tenth slower without.
#[cycle(look_look_again_look_along)]
fn look_along(
    arena: &mut Arena,
    cache: &mut [Option<ObservableOrders>; 128],
    s: Eos,
    e: ExprRecord,
    b: Before,
) -> Walk
    requires { AlongAsks arena.old.records.bytes arena.old.records.count (state_in arena.old cache.old s) e b }
    ensures looked { AlongGives arena.old.records.bytes arena.old.records.count (state_in arena.old cache.old s) e b (walked (state_in arena.new cache.new result.state) result.seen) }
    ensures records { SameRecords arena.old.records arena.new.records }
{
    let mut t = s;
    let mut seen = Seen::new();
    for i in 0..e.children.count {
        let c = child_of(&e.children, b.turned, i);
        let u = look(arena, cache, t, c as usize, mode(b, i));
        seen = seen.add(u.answer(), c, i);
        t = enter_struct(u, e.kind, i);
    }
    Walk { state: t, seen }
}
