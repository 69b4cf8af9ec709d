// What the looks of a visit own of ExprOrderSimplifier, in one number: only the methods here touch its bits.
ghost use Rattle.std.specs.Prelude.{◌≡◌, ◌+◌, ◌<◌, ◌^◌};
ghost use Rattle.plan.specs.Orders.{orders_number};
ghost use Rattle.expr.specs.Eos.{own_of, no_looks, one_look, with_field, with_observed, with_answer};

use plan::orders::ObservableOrders;

// Lent to the looks beside it, as in the Rust, are the arena and the revisit_cache: `line` has the base record that each line
// holds now, and `off` whether its Implode was switched off.
// One number, which goes by value through every call: as a struct of four fields, tried on 2026-11-26, it made a look take from
// a fifth to a half longer.
#[derive(Clone, Copy)]
pub struct Eos {
    // looks * 64 + struct_field_ordering * 16 + internally_observed * 4 + the last look's answer.
    bits: u64,
}

// An order set's number, which takes two bits.
fn code(o: ObservableOrders) -> u64
    ensures { (result ≡ orders_number o) × (result < 4) }
{
    u64::from(u8::from(o))
}

impl Eos {
    // As a visit starts.
    pub fn new() -> Eos
        ensures { own_of result ≡ no_looks }
    {
        Eos { bits: 0 }
    }

    // How many looks the visit made so far.
    pub fn looks(self) -> u64
        ensures { result ≡ (own_of self).looks }
    {
        self.bits / 64
    }

    // struct_field_ordering
    pub fn field(self) -> ObservableOrders
        ensures { result ≡ (own_of self).field }
    {
        ObservableOrders::from((self.bits / 16 % 4) as u8)
    }

    // internally_observed
    pub fn observed(self) -> ObservableOrders
        ensures { result ≡ (own_of self).observed }
    {
        ObservableOrders::from((self.bits / 4 % 4) as u8)
    }

    // Of the last look.
    pub fn answer(self) -> ObservableOrders
        ensures { result ≡ (own_of self).answer }
    {
        ObservableOrders::from((self.bits % 4) as u8)
    }

    // One look more.
    pub fn looked(self) -> Eos
        requires { (own_of self).looks + 1 < 2 ^ 58 }
        ensures { own_of result ≡ one_look (own_of self) }
    {
        Eos {
            bits: self.bits + 64,
        }
    }

    pub fn with_field(self, o: ObservableOrders) -> Eos
        ensures { own_of result ≡ with_field o (own_of self) }
    {
        Eos {
            bits: self.bits / 64 * 64 + code(o) * 16 + self.bits % 16,
        }
    }

    pub fn with_observed(self, o: ObservableOrders) -> Eos
        ensures { own_of result ≡ with_observed o (own_of self) }
    {
        Eos {
            bits: self.bits / 16 * 16 + code(o) * 4 + self.bits % 4,
        }
    }

    pub fn with_answer(self, o: ObservableOrders) -> Eos
        ensures { own_of result ≡ with_answer o (own_of self) }
    {
        Eos {
            bits: self.bits / 4 * 4 + code(o),
        }
    }
}
