// What a visit that removes nothing makes of a step and its edges: the match of simplify_ir_node_orders, an arm per kind. A rule takes
// what it reads of the step (s), its edges (e) and the expressions (o) as the definition's rules do: a struct of the three would stand
// in each contract as its three fields.
ghost use Rattle.std.specs.Prelude.{◌≡◌, false};
ghost use Rattle.plan.specs.Refusals.{fault_number};
ghost use Rattle.plan.specs.FunctionIR.{rust_functions};
ghost use Rattle.plan.specs.Visit.{rule, arm, ruled, unmaintained_if, first_or_last, is_hstack, select_in, select_out, sort_in, filter_in, filter_out, group_by_in, group_by_out, gather_idxs, gather_out, union_all, map_in, map_out, cache_in, cache_outs, sink_in, allow_deordering_top, refusal_number};

use crate::joins::join_rule;
use plan::choice::pick;
use plan::distinct::UniqueKeepStrategy;
use plan::function_ir::FunctionIR;
use plan::ir::IR;
use plan::refusal::Refusal;
use plan::rules::{Around, Loosened, Observable, Options, Ruled};

// With these options, and these edges loosened: into slot 0, into the later slots, out. The three are apart as in the definition's
// `ruled`: each call would else write out a Loosened with its fields' names.
pub fn ruled(s: Options, in0: bool, later: bool, out: bool) -> Ruled
    ensures { result ≡ ruled s in0 later out }
{
    Ruled {
        options: s,
        loosened: Loosened { in0, later, out },
    }
}

// A step whose option a is maintain_order.
fn unmaintained(s: Options, off: bool, in0: bool, later: bool, out: bool) -> Ruled
    ensures { result ≡ ruled (unmaintained_if off s) in0 later out }
{
    let options = Options {
        a: pick(off, 0, s.a),
        ..s
    };
    ruled(options, in0, later, out)
}

// Is it an HStack that keeps columns of its input?
fn is_hstack(s: Options) -> bool
    ensures { result ≡ is_hstack s }
{
    (s.kind == IR::HStack) & (s.a != s.n2)
}

// Select and HStack.
fn select_rule(s: Options, e: Around, o: Observable) -> Ruled
    ensures { result ≡ ruled s (select_in s e o) false (select_out s e o) }
{
    let hstack = is_hstack(s);
    let input_order_observe = ((o.exprs.column | hstack) & !e.out)
        | (hstack & o.exprs.independent)
        | o.internal.column;
    let select_in = !input_order_observe;
    let select_out = !o.exprs.independent & ((e.in0 | select_in) | !(hstack | o.exprs.column));
    ruled(s, select_in, false, select_out)
}

// Sort, kept.
fn sort_rule(s: Options, e: Around, o: Observable) -> Ruled
    ensures { result ≡ ruled (unmaintained_if (sort_in s e o) s) (sort_in s e o) false false }
{
    let sort_in = e.in0 | !((s.a == 1) | o.internal.column | o.exprs.independent);
    unmaintained(s, sort_in, sort_in, false, false)
}

fn filter_rule(s: Options, e: Around, o: Observable) -> Ruled
    ensures { result ≡ ruled s (filter_in s e o) false (filter_out s e o) }
{
    let filter_in = e.out & !(o.internal.column | o.exprs.independent);
    ruled(s, filter_in, false, e.in0 | filter_in)
}

// What GroupBy's option b adds.
const APPLY: u8 = 1;

const DYNAMIC: u8 = 2;

const ROLLING: u8 = 4;

fn group_by_rule(s: Options, e: Around, o: Observable) -> Ruled
    ensures { result ≡ ruled (unmaintained_if (group_by_out s e o) s) (group_by_in s e o) false (group_by_out s e o) }
{
    let maintain = s.a == 1;
    let order_observing_options = (s.b / APPLY % 2 == 1)
        | (s.b / DYNAMIC % 2 == 1)
        | (s.b / ROLLING % 2 == 1);
    let group_by_in = !(order_observing_options
        | o.exprs.independent
        | o.internal.column
        | (maintain & o.exprs.column & !e.out));
    let group_by_out = e.out | !maintain | ((e.in0 | group_by_in) & !o.exprs.independent);
    unmaintained(s, group_by_out, group_by_in, false, group_by_out)
}

fn first_or_last(k: UniqueKeepStrategy) -> bool
    ensures { result ≡ first_or_last k }
{
    matches!(k, UniqueKeepStrategy::First | UniqueKeepStrategy::Last)
}

#[tactic(auto, unfolding(plan::specs::Visit::arm))]
fn distinct_rule(s: Options, e: Around, o: Observable) -> Ruled
    ensures { result ≡ arm s e o rust_functions IR.Distinct }
{
    let keep = UniqueKeepStrategy::of_number(s.c);
    let needs_order = first_or_last(keep);
    let distinct_out = (s.a != 1) | (e.out & (s.b != 1));
    let distinct_in = e.in0 | (distinct_out & !needs_order);
    let keeps = pick(distinct_in & needs_order, UniqueKeepStrategy::Any, keep);
    let options = Options {
        a: pick(distinct_out | distinct_in, 0, s.a),
        c: u8::from(keeps),
        ..s
    };
    ruled(options, distinct_in, false, distinct_out)
}

fn gather_rule(s: Options, e: Around, o: Observable) -> Ruled
    ensures { result ≡ ruled s false (gather_idxs s e o) (gather_out s e o) }
{
    ruled(s, false, e.out, e.in1 | e.out)
}

fn union_rule(s: Options, e: Around, o: Observable) -> Ruled
    ensures { result ≡ ruled (unmaintained_if (union_all s e o) s) (union_all s e o) (union_all s e o) (union_all s e o) }
{
    let all = (s.a != 1) | (e.out & (s.b != 1));
    unmaintained(s, all, all, all, all)
}

// It becomes a Union.
#[tactic(auto, unfolding(plan::specs::Visit::arm))]
fn merge_sorted_rule(s: Options, e: Around, o: Observable) -> Ruled
    ensures { result ≡ arm s e o rust_functions IR.MergeSorted }
{
    if e.out | (e.in0 & e.in1) {
        let options = Options {
            kind: IR::Union,
            a: 0,
            b: 0,
            c: 0,
            ..s
        };
        return ruled(options, true, true, true);
    }
    ruled(s, false, false, false)
}

fn map_rule(s: Options, e: Around, o: Observable) -> Ruled
    ensures { result ≡ ruled s (map_in s e o rust_functions) false (map_out s e o rust_functions) }
{
    let f = FunctionIR::of_number(s.a);
    let equal = f.has_equal_order();
    let map_in = !f.observes_input_order() & (!equal | e.out);
    let unordered = e.in0 | map_in;
    let producing = f.is_order_producing(!unordered);
    ruled(s, map_in, false, !producing & (unordered | !equal))
}

// Its out-edges, or else its in-edge.
fn cache_rule(s: Options, e: Around, o: Observable) -> Ruled
    ensures { result ≡ ruled s (cache_in s e o) false (cache_outs s e o) }
{
    ruled(s, !e.in0 & e.outs, false, e.in0)
}

fn sink_rule(s: Options, e: Around, o: Observable) -> Ruled
    ensures { result ≡ ruled (unmaintained_if (sink_in s e o) s) (sink_in s e o) false false }
{
    let sink_in = (s.a != 1) | e.in0;
    unmaintained(s, sink_in, sink_in, false, false)
}

// The match: an arm per kind.
#[tactic(auto, unfolding(plan::specs::Visit::arm))]
pub fn rule_of(s: Options, e: Around, o: Observable) -> Ruled
    ensures { result ≡ rule rust_functions s e o }
{
    match s.kind {
        IR::Scan => ruled(s, false, false, false),
        IR::UnoptimizedDispatch => ruled(s, false, false, false),
        IR::Sink => sink_rule(s, e, o),
        IR::Select => select_rule(s, e, o),
        IR::HStack => select_rule(s, e, o),
        IR::Sort => sort_rule(s, e, o),
        IR::Filter => filter_rule(s, e, o),
        IR::GroupBy => group_by_rule(s, e, o),
        IR::Distinct => distinct_rule(s, e, o),
        IR::Join => join_rule(s, e, o),
        IR::Gather => gather_rule(s, e, o),
        IR::Union => union_rule(s, e, o),
        IR::MergeSorted => merge_sorted_rule(s, e, o),
        IR::MapFunction => map_rule(s, e, o),
        IR::HConcat => ruled(s, false, false, e.ins),
        IR::Slice => ruled(s, false, false, e.ins),
        IR::ExtContext => ruled(s, false, false, e.ins),
        IR::SimpleProjection => ruled(s, e.in0 | e.out, false, e.in0 | e.out),
        IR::Cache => cache_rule(s, e, o),
    }
}

// allow_deordering_top of the n2 list; of the n3 list it is false.
#[tactic(auto, unfolding(plan::specs::Visit::allow_deordering_top))]
pub fn allow_deordering_top(s: Options, e: Around) -> bool
    ensures { result ≡ allow_deordering_top s e }
{
    match s.kind {
        IR::Select | IR::HStack => e.out & (e.in0 | !is_hstack(s)),
        IR::GroupBy => e.in0 & (s.a != 1),
        _ => false,
    }
}

// Join keys and the keys of a partitioned Sink should be elementwise.
#[tactic(auto, unfolding(plan::specs::Visit::refusal_number))]
pub fn check_keys(s: Options, o: Observable) -> Result<(), Refusal>
    ensures { fault_number result ≡ refusal_number s o }
{
    let elementwise = !(o.exprs.independent | o.aggs.independent) & !o.internal.column;
    match s.kind {
        IR::Join if !elementwise => Err(Refusal::JoinKeys),
        IR::Sink if (s.b == 1) & !elementwise => Err(Refusal::SinkKeys),
        _ => Ok(()),
    }
}
