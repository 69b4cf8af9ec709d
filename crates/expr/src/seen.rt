// What is seen of a record's children: their ExprOrderAcc, and the answers of the first three.
ghost use Rattle.std.specs.Prelude.{◌≡◌, ◌<◌};
ghost use Rattle.expr.specs.Seen.{none_seen, Adds};

use plan::choice::pick;
use plan::orders::{ExprOrderAcc, ObservableOrders};

// What a look along children comes to.
#[derive(Clone, Copy)]
pub struct Seen {
    pub acc: ExprOrderAcc,
    pub first: ObservableOrders,
    pub second: ObservableOrders,
    pub third: ObservableOrders,
}

impl Seen {
    pub fn new() -> Seen
        ensures { result ≡ none_seen }
    {
        let empty = ObservableOrders::EMPTY;
        Seen {
            acc: ExprOrderAcc {
                acc: empty,
                saw_mixed_inputs: false,
                num_ordered_inputs: 0,
                last_ordered_node: 0,
            },
            first: empty,
            second: empty,
            third: empty,
        }
    }

    // The answer o of the i-th child, which is the node.
    #[inline(always)]
    pub fn add(self, o: ObservableOrders, node: u8, i: u8) -> Seen
        requires { self.acc.num_ordered_inputs < 255 }
        ensures { Adds self o node i result }
    {
        Seen {
            acc: self.acc.add(o, node),
            first: pick(i == 0, o, self.first),
            second: pick(i == 1, o, self.second),
            third: pick(i == 2, o, self.third),
        }
    }
}
