// The kinds of plan steps: IR of plans/ir/mod.rs.
ghost use Rattle.std.specs.Prelude.{◌≡◌};
ghost use Rattle.plan.specs.Kinds.{ir, ir_number, in_table};

use crate::refusal::Refusal;
use crate::table::kind_at;

// Scan stands for DataFrameScan too.
#[derive(Clone, Copy, Debug, PartialEq, Eq)]
pub enum IR {
    Scan,
    UnoptimizedDispatch,
    Sink,
    Select,
    HStack,
    Sort,
    Filter,
    GroupBy,
    Distinct,
    Join,
    Gather,
    Union,
    MergeSorted,
    MapFunction,
    HConcat,
    Slice,
    ExtContext,
    SimpleProjection,
    Cache,
}

const IRS: [IR; 19] = [
    IR::Scan,
    IR::UnoptimizedDispatch,
    IR::Sink,
    IR::Select,
    IR::HStack,
    IR::Sort,
    IR::Filter,
    IR::GroupBy,
    IR::Distinct,
    IR::Join,
    IR::Gather,
    IR::Union,
    IR::MergeSorted,
    IR::MapFunction,
    IR::HConcat,
    IR::Slice,
    IR::ExtContext,
    IR::SimpleProjection,
    IR::Cache,
];

impl From<IR> for u8 {
    ghost from_gives = { λ x k. k ≡ ir_number x };

    fn from(x: IR) -> u8 {
        x as u8
    }
}

impl TryFrom<u8> for IR {
    type Error = Refusal;

    ghost try_from_gives = { λ k r. r ≡ in_table 19 ir k };

    fn try_from(k: u8) -> Result<IR, Refusal> {
        kind_at(&IRS, k)
    }
}

impl IR {
    // By its number on a sheet; a number past the table is given the first. It cannot fail, and `try_from` can: stored
    // numbers were checked. No trait for the six kinds, as table.rt says.
    pub fn of_number(k: u8) -> IR
        ensures { result ≡ ir k }
    {
        IR::try_from(k).unwrap_or(IR::Scan)
    }
}
