// The options of a Join that are enums.
ghost use Rattle.std.specs.Prelude.{◌≡◌};
ghost use Rattle.plan.specs.Kinds.{join_type, join_type_number, maintain_order, maintain_order_number, in_table};

use crate::refusal::Refusal;
use crate::table::kind_at;

// Other stands for every type that the rules do not tell apart.
#[derive(Clone, Copy, Debug, PartialEq, Eq)]
pub enum JoinType {
    Other,
    Semi,
    Anti,
    AsOf,
}

const JOIN_TYPES: [JoinType; 4] = [
    JoinType::Other,
    JoinType::Semi,
    JoinType::Anti,
    JoinType::AsOf,
];

impl From<JoinType> for u8 {
    ghost from_gives = { λ x k. k ≡ join_type_number x };

    fn from(x: JoinType) -> u8 {
        x as u8
    }
}

impl TryFrom<u8> for JoinType {
    type Error = Refusal;

    ghost try_from_gives = { λ k r. r ≡ in_table 4 join_type k };

    fn try_from(k: u8) -> Result<JoinType, Refusal> {
        kind_at(&JOIN_TYPES, k)
    }
}

impl JoinType {
    // By its number on a sheet; a number past the table is given the first. It cannot fail, and `try_from` can: stored
    // numbers were checked. No trait for the six kinds, as table.rt says.
    pub fn of_number(k: u8) -> JoinType
        ensures { result ≡ join_type k }
    {
        JoinType::try_from(k).unwrap_or(JoinType::Other)
    }
}

// Whose order a Join keeps.
#[derive(Clone, Copy, Debug, PartialEq, Eq)]
pub enum MaintainOrderJoin {
    None,
    Left,
    Right,
    LeftRight,
    RightLeft,
}

const MAINTAIN_ORDERS: [MaintainOrderJoin; 5] = [
    MaintainOrderJoin::None,
    MaintainOrderJoin::Left,
    MaintainOrderJoin::Right,
    MaintainOrderJoin::LeftRight,
    MaintainOrderJoin::RightLeft,
];

impl From<MaintainOrderJoin> for u8 {
    ghost from_gives = { λ x k. k ≡ maintain_order_number x };

    fn from(x: MaintainOrderJoin) -> u8 {
        x as u8
    }
}

impl TryFrom<u8> for MaintainOrderJoin {
    type Error = Refusal;

    ghost try_from_gives = { λ k r. r ≡ in_table 5 maintain_order k };

    fn try_from(k: u8) -> Result<MaintainOrderJoin, Refusal> {
        kind_at(&MAINTAIN_ORDERS, k)
    }
}

impl MaintainOrderJoin {
    // By its number on a sheet; a number past the table is given the first. It cannot fail, and `try_from` can: stored
    // numbers were checked. No trait for the six kinds, as table.rt says.
    pub fn of_number(k: u8) -> MaintainOrderJoin
        ensures { result ≡ maintain_order k }
    {
        MaintainOrderJoin::try_from(k).unwrap_or(MaintainOrderJoin::None)
    }
}
