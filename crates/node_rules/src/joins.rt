// The rule of a Join.
ghost use Rattle.std.specs.Prelude.{◌≡◌};
ghost use Rattle.plan.specs.Visit.{join_rule, without_left, without_right};

use crate::rules::ruled;
use plan::choice::pick;
use plan::join::{JoinType, MaintainOrderJoin};
use plan::rules::{Around, Observable, Options, Ruled};

// A Join's kept sides, the left side's order gone. As in the definition there is one function for each side: one for both would take
// the side that goes and the side that stays.
fn without_left(m: MaintainOrderJoin) -> MaintainOrderJoin
    ensures { result ≡ without_left m }
{
    match m {
        MaintainOrderJoin::None | MaintainOrderJoin::Left => MaintainOrderJoin::None,
        MaintainOrderJoin::Right | MaintainOrderJoin::LeftRight | MaintainOrderJoin::RightLeft => {
            MaintainOrderJoin::Right
        }
    }
}

// The right side's.
fn without_right(m: MaintainOrderJoin) -> MaintainOrderJoin
    ensures { result ≡ without_right m }
{
    match m {
        MaintainOrderJoin::None | MaintainOrderJoin::Right => MaintainOrderJoin::None,
        MaintainOrderJoin::Left | MaintainOrderJoin::LeftRight | MaintainOrderJoin::RightLeft => {
            MaintainOrderJoin::Left
        }
    }
}

// AsOf: at once on all three edges. Any other: first on all three, then the left side, then the right.
pub fn join_rule(s: Options, e: Around, o: Observable) -> Ruled
    ensures { result ≡ join_rule s e o }
{
    let how = JoinType::of_number(s.a);
    if how == JoinType::AsOf {
        let as_of = e.in0 | (e.out & e.in1);
        return ruled(s, as_of, as_of, as_of);
    }
    let m = MaintainOrderJoin::of_number(s.b);
    let all = e.out | (m == MaintainOrderJoin::None);
    let m1 = pick(all, MaintainOrderJoin::None, m);
    let lhs = (e.in0 | all) | (m1 == MaintainOrderJoin::Right);
    let m2 = pick(lhs, without_left(m1), m1);
    let semi_or_anti = (how == JoinType::Semi) | (how == JoinType::Anti);
    let rhs = (e.in1 | all) | (m2 == MaintainOrderJoin::Left) | semi_or_anti;
    let m3 = pick(rhs, without_right(m2), m2);
    let options = Options {
        b: u8::from(m3),
        ..s
    };
    ruled(options, lhs, rhs, all)
}
