// The option of a Distinct that is an enum.
ghost use Rattle.std.specs.Prelude.{◌≡◌};
ghost use Rattle.plan.specs.Kinds.{keep_strategy, keep_strategy_number, in_table};

use crate::refusal::Refusal;
use crate::table::kind_at;

// Which of equal rows a Distinct keeps.
#[derive(Clone, Copy, Debug, PartialEq, Eq)]
pub enum UniqueKeepStrategy {
    First,
    Last,
    Any,
    None,
}

const KEEP_STRATEGIES: [UniqueKeepStrategy; 4] = [
    UniqueKeepStrategy::First,
    UniqueKeepStrategy::Last,
    UniqueKeepStrategy::Any,
    UniqueKeepStrategy::None,
];

impl From<UniqueKeepStrategy> for u8 {
    ghost from_gives = { λ x k. k ≡ keep_strategy_number x };

    fn from(x: UniqueKeepStrategy) -> u8 {
        x as u8
    }
}

impl TryFrom<u8> for UniqueKeepStrategy {
    type Error = Refusal;

    ghost try_from_gives = { λ k r. r ≡ in_table 4 keep_strategy k };

    fn try_from(k: u8) -> Result<UniqueKeepStrategy, Refusal> {
        kind_at(&KEEP_STRATEGIES, k)
    }
}

impl UniqueKeepStrategy {
    // By its number on a sheet; a number past the table is given the first. It cannot fail, and `try_from` can: stored
    // numbers were checked. No trait for the six kinds, as table.rt says.
    pub fn of_number(k: u8) -> UniqueKeepStrategy
        ensures { result ≡ keep_strategy k }
    {
        UniqueKeepStrategy::try_from(k).unwrap_or(UniqueKeepStrategy::First)
    }
}
