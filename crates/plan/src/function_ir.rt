// The functions of a MapFunction: FunctionIR of plans/functions/mod.rs, with the methods that the port calls.
ghost use Rattle.std.specs.Prelude.{◌≡◌};
ghost use Rattle.plan.specs.FunctionIR.{is_order_producing, observes_input_order, has_equal_order};
ghost use Rattle.plan.specs.Kinds.{function_ir, function_ir_number, in_table};

use crate::refusal::Refusal;
use crate::table::kind_at;

// What a MapFunction does to the whole frame.
#[derive(Clone, Copy, Debug, PartialEq, Eq)]
pub enum FunctionIR {
    RowIndex,
    FastCount,
    Unnest,
    Rechunk,
    Explode,
    Unpivot,
    Opaque,
    Hint,
}

const FUNCTION_IRS: [FunctionIR; 8] = [
    FunctionIR::RowIndex,
    FunctionIR::FastCount,
    FunctionIR::Unnest,
    FunctionIR::Rechunk,
    FunctionIR::Explode,
    FunctionIR::Unpivot,
    FunctionIR::Opaque,
    FunctionIR::Hint,
];

impl From<FunctionIR> for u8 {
    ghost from_gives = { λ x k. k ≡ function_ir_number x };

    fn from(x: FunctionIR) -> u8 {
        x as u8
    }
}

impl TryFrom<u8> for FunctionIR {
    type Error = Refusal;

    ghost try_from_gives = { λ k r. r ≡ in_table 8 function_ir k };

    fn try_from(k: u8) -> Result<FunctionIR, Refusal> {
        kind_at(&FUNCTION_IRS, k)
    }
}

impl FunctionIR {
    // By its number on a sheet; a number past the table is given the first. It cannot fail, and `try_from` can: stored
    // numbers were checked. No trait for the six kinds, as table.rt says.
    pub fn of_number(k: u8) -> FunctionIR
        ensures { result ≡ function_ir k }
    {
        FunctionIR::try_from(k).unwrap_or(FunctionIR::RowIndex)
    }

    pub fn is_order_producing(self, is_input_ordered: bool) -> bool
        ensures { result ≡ is_order_producing self is_input_ordered }
    {
        match self {
            FunctionIR::RowIndex => true,
            FunctionIR::FastCount => false,
            FunctionIR::Unnest => is_input_ordered,
            FunctionIR::Rechunk => is_input_ordered,
            FunctionIR::Explode => true,
            FunctionIR::Unpivot => true,
            FunctionIR::Opaque => true,
            FunctionIR::Hint => is_input_ordered,
        }
    }

    // The Rust has `true` for every function: a visit to a MapFunction never loosens its in-edge.
    pub fn observes_input_order(self) -> bool
        ensures { result ≡ observes_input_order self }
    {
        true
    }

    // Is the input ordering always the same as the output ordering.
    pub fn has_equal_order(self) -> bool
        ensures { result ≡ has_equal_order self }
    {
        match self {
            FunctionIR::RowIndex => false,
            FunctionIR::FastCount => false,
            FunctionIR::Unnest => true,
            FunctionIR::Rechunk => true,
            FunctionIR::Explode => false,
            FunctionIR::Unpivot => false,
            FunctionIR::Opaque => false,
            FunctionIR::Hint => true,
        }
    }
}
