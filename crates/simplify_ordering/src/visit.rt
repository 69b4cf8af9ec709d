// A visit to a step: simplify_ir_node_orders.
ghost use Rattle.std.specs.Prelude.{◌≡◌, ◌&&◌, ◌<◌, not, [], OnOk, OnErr};
ghost use Rattle.plan.specs.Kinds.{same_ir};
ghost use Rattle.plan.specs.declared.ir.IR.{IR};
ghost use Rattle.plan.specs.Lists.{yes?};
ghost use Rattle.plan.specs.Refusals.{fault_number};
ghost use Rattle.plan.specs.Visit.{refusal_number, settle, simplify_ir_node_orders};
ghost use Rattle.claims.specs.Visitable.{Visitable};
ghost use Rattle.storage.specs.Edges.{InRows};
ghost use Rattle.node_rules.specs.Held.{InRun};
ghost use Rattle.storage.specs.Held.{steps_in, edges_in};
ghost use Rattle.simplify_ordering.specs.Held.{run_of};
ghost use Rattle.simplify_ordering.specs.Run.{SameSize, Finds, RuledBy, Comes, SettleAsks};

use crate::looks::looks_of;
use crate::run::StoredRun;
use node_rules::around::{around_step, in_edges_of};
use node_rules::in_edges::InEdges;
use node_rules::loosen::loosen_edges;
use node_rules::rules::{check_keys, rule_of};
use node_rules::unlink::unlink_node;
use plan::ir::IR;
use plan::refusal::Refusal;
use plan::rules::{Around, Observable, Options};
use storage::stored::{Edges, Steps};
use tally::count_visit;

// A step as a visit finds it: its options, its number and the edges into it, and which of its edges are unordered.
#[derive(Clone, Copy)]
pub struct Found {
    pub options: Options,
    pub ins: InEdges,
    pub around: Around,
}

// What comes of a visit that is not refused: the step was settled, or it was a sort that is removed.
#[derive(Clone, Copy, Debug, PartialEq, Eq)]
pub enum Visited {
    Settled,
    Removed,
}

// What the looks observed settles a step: it is refused, and nothing is changed, or its rule is followed.
fn settle_by_rule(
    steps: &mut Steps,
    ends: &[u8; 544],
    edges: &mut Edges,
    v: Found,
    o: Observable,
) -> Result<(), Refusal>
    requires step { v.ins.of < steps.old.count }
    requires its_edges { InRun ends.now edges.old.count v.ins }
    ensures fault { fault_number result ≡ refusal_number v.options o }
    ensures ruled { OnOk result (RuledBy v o (steps_in steps.old) (edges_in ends.now edges.old) (steps_in steps.new) (edges_in ends.now edges.new)) }
    ensures unchanged { OnErr result ((steps.new.bytes ≡ steps.old.bytes) × (edges.new.bytes ≡ edges.old.bytes)) }
    ensures counts { (steps.new.count ≡ steps.old.count) × (edges.new.count ≡ edges.old.count) }
{
    check_keys(v.options, o)?;
    let r = rule_of(v.options, v.around, o);
    steps.store_options(usize::from(v.ins.of), r.options);
    loosen_edges(ends, edges, v.ins, r.loosened);
    Ok(())
}

// A visit that removes nothing. Its looks are made and counted, whether it is refused or not.
fn settle(run: &mut StoredRun, ends: &[u8; 544], v: Found) -> Result<Visited, Refusal>
    requires finds { Finds ends.now run.old v }
    requires asks { SettleAsks v.ins.of (run_of run.old ends.now [] []) }
    ensures comes { Comes settle v.ins.of (run_of run.old ends.now) (run_of run.new ends.now) result }
    ensures same_size { SameSize run.old run.new }
{
    let i = usize::from(v.ins.of);
    let o = looks_of(
        &mut run.steps,
        i,
        &mut run.arena,
        &mut run.tally,
        v.options,
        v.around,
    );
    settle_by_rule(&mut run.steps, ends, &mut run.edges, v, o)?;
    count_visit(&mut run.tally);
    Ok(Visited::Settled)
}

// A Sort with an unordered out-edge and no slice goes.
fn goes(s: Options, e: Around) -> bool
    ensures { result ≡ (same_ir s.kind IR.Sort && e.out && not (yes? s.b)) }
{
    (s.kind == IR::Sort) & e.out & (s.b != 1)
}

pub fn simplify_ir_node_orders(
    run: &mut StoredRun,
    ends: &[u8; 544],
    n: u8,
) -> Result<Visited, Refusal>
    requires rows { InRows ends.now run.old.edges.count run.old.steps.count }
    requires visitable { Visitable n (run_of run.old ends.now [] []) }
    ensures comes { Comes simplify_ir_node_orders n (run_of run.old ends.now) (run_of run.new ends.now) result }
    ensures same_size { SameSize run.old run.new }
{
    let options = run.steps.options(usize::from(n));
    let ins = in_edges_of(ends, run.edges.count, n);
    let around = around_step(&run.edges, ins);
    if goes(options, around) {
        unlink_node(&mut run.steps, ends, &mut run.edges, ins);
        count_visit(&mut run.tally);
        return Ok(Visited::Removed);
    }
    let found = Found {
        options,
        ins,
        around,
    };
    settle(run, ends, found)
}
