// What a record does once its children have answered, by its kind.
ghost use Rattle.std.specs.Prelude.{◌≡◌, ◌≤◌, MatchOption};
ghost use Rattle.plan.specs.Kinds.{aexpr_number};
ghost use Rattle.plan.specs.declared.orders.ObservableOrders.{ObservableOrders};
ghost use Rattle.plan.specs.Look.{twice, once, plain, after};
ghost use Rattle.storage.specs.Exprs.{record_of};
ghost use Rattle.expr.specs.Tables.{output_of, after_of, ternary_output, projected_row, filter_row, ternary_row, function_row, answers, Leaf};

use crate::seen::Seen;
use plan::aexpr::AExpr;
use plan::choice::pick;
use plan::function_flags::FunctionFlags;
use plan::function_output::function_output;
use plan::orders::{ExprOrderAcc, ObservableOrders as O};
use storage::exprs::ExprRecord;

// An answer from that of the second look.
#[derive(Clone, Copy)]
pub enum Output {
    // As where no child is looked at again.
    Same,
    Empty,
    // The second look's own.
    Input,
    // A Function's, by terminates_input_order and non_order_producing.
    Function(bool, bool),
}

impl Output {
    // same: the answer where no child is looked at again. input: that of the second look.
    pub fn of(self, same: O, input: O) -> O
        ensures { result ≡ output_of same self input }
    {
        match self {
            Output::Same => same,
            Output::Empty => O::EMPTY,
            Output::Input => input,
            Output::Function(t, n) => function_output(t, n, input),
        }
    }
}

#[derive(Clone, Copy)]
pub struct After {
    // Handed to internal_observe.
    pub observes: O,
    // Is the single ordered child looked at once more? No Option with answer_again in it: the definition has an answer_again in each
    // row, and the contracts below are equations with its rows.
    pub again: bool,
    // Where no child is looked at again.
    pub answer: O,
    pub answer_again: Output,
    // cache_output!
    pub caches: bool,
}

// A Ternary's: the predicate's order is not the output's.
fn ternary_output(of_predicate: bool) -> Output
    ensures { (same : ObservableOrders) → output_of same result ≡ ternary_output of_predicate }
{
    if of_predicate {
        Output::Empty
    } else {
        Output::Input
    }
}

impl After {
    // A kind that may look at a child again.
    fn twice(observes: O, again: bool, answer: O, answer_again: Output, caches: bool) -> After
        ensures { after_of result ≡ twice observes again answer (output_of answer answer_again) caches }
    {
        After {
            observes,
            again,
            answer,
            answer_again,
            caches,
        }
    }

    // A kind that looks at no child again.
    fn once(observes: O, answer: O, caches: bool) -> After
        ensures { after_of result ≡ once observes answer caches }
    {
        After::twice(observes, false, answer, Output::Same, caches)
    }

    // And observes nothing and caches nothing.
    fn plain(answer: O) -> After
        ensures { after_of result ≡ plain answer }
    {
        After::once(O::EMPTY, answer, false)
    }

    // BinaryExpr and StructEval: the single ordered child is looked at again where nothing was mixed.
    fn projected(x: ExprOrderAcc, allow: bool) -> After
        ensures { after_of result ≡ projected_row x allow }
    {
        let acc = x.acc;
        let mixed = x.saw_mixed_inputs;
        let again = !mixed & (x.num_ordered_inputs == 1) & allow;
        let observes = pick(mixed, acc, O::EMPTY);
        After::twice(observes, again, acc, Output::Input, mixed | again)
    }

    // The by is looked at again where it alone is ordered.
    fn filter(x: ExprOrderAcc, mixed: O, o0: O, o1: O) -> After
        ensures { after_of result ≡ filter_row x mixed o0 o1 }
    {
        let by_alone = o0.is_empty() & !o1.is_empty();
        let again = !x.saw_mixed_inputs & (x.num_ordered_inputs == 1) & by_alone;
        After::twice(mixed, again, o0, Output::Same, true)
    }

    fn ternary(x: ExprOrderAcc, allow: bool, predicate: u8, branches: O) -> After
        ensures { after_of result ≡ ternary_row x allow predicate branches }
    {
        let mixed = x.saw_mixed_inputs;
        let again = !mixed & (x.num_ordered_inputs == 1) & allow;
        let output = ternary_output(x.last_ordered_node == predicate);
        let observes = pick(mixed, branches, O::EMPTY);
        After::twice(observes, again, branches, output, mixed | again)
    }

    fn function(x: ExprOrderAcc, allow: bool, option: u8) -> After
        ensures { after_of result ≡ function_row x allow option }
    {
        let flags = FunctionFlags { bits: option };
        let observes = flags.observes_input_order();
        let terminates = flags.terminates_input_order();
        let non_producing = flags.non_order_producing();
        let acc = x.acc;
        let mixed = x.saw_mixed_inputs;
        let again = (x.num_ordered_inputs == 1) & !observes & (allow | terminates);
        let observed = pick(observes, acc, O::EMPTY);
        After::twice(
            observed.union(pick(mixed, acc, O::EMPTY)),
            again,
            function_output(terminates, non_producing, acc),
            Output::Function(terminates, non_producing),
            mixed | again,
        )
    }

    // allow: is de-ordering allowed? field: struct_field_ordering. seen: what the children answered.
    pub fn of(e: ExprRecord, allow: bool, field: O, seen: Seen) -> After
        ensures { after_of result ≡ after (record_of e) allow field (answers seen) seen.acc e.kind }
    {
        let x = seen.acc;
        let acc = x.acc;
        let o0 = seen.first;
        let o1 = seen.second;
        let o2 = seen.third;
        let set = e.option == 1;
        let mixed = pick(x.saw_mixed_inputs, acc, O::EMPTY);
        match e.kind {
            AExpr::Column => After::plain(O::COLUMN),
            AExpr::Literal => After::plain(pick(e.scalar, O::EMPTY, O::INDEPENDENT)),
            AExpr::Element => After::plain(O::INDEPENDENT),
            AExpr::StructField => After::plain(field),
            AExpr::Len => After::plain(O::EMPTY),
            AExpr::BinaryExpr => After::projected(x, allow),
            AExpr::Ternary => After::ternary(x, allow, e.children.first(), o0.union(o1)),
            AExpr::Cast => After::plain(o0),
            AExpr::Explode => After::plain(o0.union(O::INDEPENDENT)),
            AExpr::Sort => After::plain(O::INDEPENDENT),
            AExpr::SortBy => After::once(
                mixed,
                pick(set, o0.union(O::INDEPENDENT), O::INDEPENDENT),
                false,
            ),
            AExpr::Filter => After::filter(x, mixed, o0, o1),
            AExpr::Gather => After::once(o0, pick(set | o0.is_empty(), O::EMPTY, o1), true),
            AExpr::Slice => After::once(o2.union(mixed), o2, false),
            AExpr::Eval => After::once(
                pick(set, o0, O::EMPTY),
                pick(set, o0.union(O::INDEPENDENT), o0),
                true,
            ),
            AExpr::StructEval => After::projected(x, allow),
            AExpr::Over => After::once(acc, acc.union(O::INDEPENDENT), true),
            AExpr::Rolling => After::once(acc, acc.union(O::INDEPENDENT), true),
            AExpr::MinBy => After::once(acc, O::EMPTY, true),
            AExpr::Function => After::function(x, allow, e.option),
            AExpr::AnonymousAgg => After::once(acc, acc.union(O::INDEPENDENT), true),
            AExpr::First => After::once(o0, O::EMPTY, true),
            AExpr::Min => After::once(O::EMPTY, O::EMPTY, true),
            AExpr::Implode => After::once(pick(set, o0, O::EMPTY), O::EMPTY, !set | o0.is_empty()),
            AExpr::AggGroups => After::once(o0, o0.union(O::INDEPENDENT), true),
        }
    }
}

// The answer of a record without children, if it is of one of the five kinds that only leaves have. Beside the five arms of After::of, as
// it answers before the record is read: without it, tried on 2026-11-27, a look on the longest chain took 29.4 ns for 27.1.
pub fn leaf(kind: AExpr, scalar: bool, field: O) -> Option<O>
    ensures { MatchOption result (5 ≤ aexpr_number kind) (λ o. Leaf kind scalar field o) }
{
    match kind {
        AExpr::Column => Some(O::COLUMN),
        AExpr::Literal => Some(pick(scalar, O::EMPTY, O::INDEPENDENT)),
        AExpr::Element => Some(O::INDEPENDENT),
        AExpr::StructField => Some(field),
        AExpr::Len => Some(O::EMPTY),
        _ => None,
    }
}
