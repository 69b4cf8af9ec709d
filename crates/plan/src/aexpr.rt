// The kinds of expression records: AExpr of plans/aexpr/mod.rs, with the aggregates of IRAggExpr beside the rest.
ghost use Rattle.std.specs.Prelude.{◌≡◌};
ghost use Rattle.plan.specs.Kinds.{aexpr, aexpr_number, in_table};

use crate::refusal::Refusal;
use crate::table::kind_at;

// MinBy stands for MaxBy too, First for Last and their NonNull forms, Min for every aggregate that lifts order (Min to Var).
#[derive(Clone, Copy, Debug, PartialEq, Eq)]
pub enum AExpr {
    Column,
    Literal,
    Element,
    StructField,
    Len,
    BinaryExpr,
    Ternary,
    Cast,
    Explode,
    Sort,
    SortBy,
    Filter,
    Gather,
    Slice,
    Eval,
    StructEval,
    Over,
    Rolling,
    MinBy,
    Function,
    AnonymousAgg,
    First,
    Min,
    Implode,
    AggGroups,
}

const AEXPRS: [AExpr; 25] = [
    AExpr::Column,
    AExpr::Literal,
    AExpr::Element,
    AExpr::StructField,
    AExpr::Len,
    AExpr::BinaryExpr,
    AExpr::Ternary,
    AExpr::Cast,
    AExpr::Explode,
    AExpr::Sort,
    AExpr::SortBy,
    AExpr::Filter,
    AExpr::Gather,
    AExpr::Slice,
    AExpr::Eval,
    AExpr::StructEval,
    AExpr::Over,
    AExpr::Rolling,
    AExpr::MinBy,
    AExpr::Function,
    AExpr::AnonymousAgg,
    AExpr::First,
    AExpr::Min,
    AExpr::Implode,
    AExpr::AggGroups,
];

impl From<AExpr> for u8 {
    ghost from_gives = { λ x k. k ≡ aexpr_number x };

    fn from(x: AExpr) -> u8 {
        x as u8
    }
}

impl TryFrom<u8> for AExpr {
    type Error = Refusal;

    ghost try_from_gives = { λ k r. r ≡ in_table 25 aexpr k };

    fn try_from(k: u8) -> Result<AExpr, Refusal> {
        kind_at(&AEXPRS, k)
    }
}

impl AExpr {
    // By its number on a sheet; a number past the table is given the first. It cannot fail, and `try_from` can: stored
    // numbers were checked. No trait for the six kinds, as table.rt says.
    pub fn of_number(k: u8) -> AExpr
        ensures { result ≡ aexpr k }
    {
        AExpr::try_from(k).unwrap_or(AExpr::Column)
    }
}
