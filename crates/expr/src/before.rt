// What stands before the looks along a record's children, by its kind.
ghost use Rattle.std.specs.Prelude.{◌≡◌};
ghost use Rattle.plan.specs.Look.{before, row};
ghost use Rattle.storage.specs.Exprs.{record_of};

use plan::aexpr::AExpr;
use plan::looks::Before;
use storage::exprs::ExprRecord;

fn row(checks: bool, turned: bool, first: bool) -> Before
    ensures { result ≡ row checks turned first }
{
    Before {
        checks,
        turned,
        first,
    }
}

// allow: is de-ordering allowed where the record is looked at?
#[tactic(auto, unfolding(plan::specs::Look::before))]
pub fn before_of(e: ExprRecord, allow: bool) -> Before
    ensures { result ≡ before (record_of e) allow e.kind }
{
    match e.kind {
        AExpr::Column => row(false, false, false),
        AExpr::Literal => row(false, false, false),
        AExpr::Element => row(false, false, false),
        AExpr::StructField => row(false, false, false),
        AExpr::Len => row(false, false, false),
        AExpr::BinaryExpr => row(true, false, false),
        // truthy, falsy, predicate
        AExpr::Ternary => row(true, true, false),
        AExpr::Cast => row(false, false, allow),
        AExpr::Explode => row(false, false, allow),
        // An expression's sort never maintains order.
        AExpr::Sort => row(false, false, true),
        AExpr::SortBy => row(false, false, allow),
        AExpr::Filter => row(true, false, false),
        AExpr::Gather => row(true, false, false),
        // offset, length, input
        AExpr::Slice => row(false, true, false),
        AExpr::Eval => row(true, false, false),
        AExpr::StructEval => row(true, false, false),
        AExpr::Over => row(true, false, false),
        AExpr::Rolling => row(true, false, false),
        AExpr::MinBy => row(true, false, false),
        AExpr::Function => row(true, false, false),
        AExpr::AnonymousAgg => row(true, false, false),
        AExpr::First => row(true, false, false),
        AExpr::Min => row(true, false, true),
        // Allowed unless it maintains order.
        AExpr::Implode => row(true, false, e.option != 1),
        AExpr::AggGroups => row(true, false, false),
    }
}
