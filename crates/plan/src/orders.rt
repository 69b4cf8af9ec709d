// The orders that an expression lets be observed, and those of several accumulated: ObservableOrders and ExprOrderAcc of expr.rs.
ghost use Rattle.std.specs.Prelude.{◌≡◌, ◌<◌};
ghost use Rattle.plan.specs.Orders.{◌∪◌, is_empty, orders_number, orders_of, add};

#[derive(Clone, Copy)]
pub struct ObservableOrders {
    // Ordering of a column can be observed.
    pub column: bool,
    // Order originating from a non-column node can be observed, as that of a sort.
    pub independent: bool,
}

impl ObservableOrders {
    pub const EMPTY: ObservableOrders = ObservableOrders {
        column: false,
        independent: false,
    };

    pub const COLUMN: ObservableOrders = ObservableOrders {
        column: true,
        independent: false,
    };

    pub const INDEPENDENT: ObservableOrders = ObservableOrders {
        column: false,
        independent: true,
    };

    pub fn is_empty(self) -> bool
        ensures { result ≡ is_empty self }
    {
        !(self.column | self.independent)
    }

    pub fn union(self, other: ObservableOrders) -> ObservableOrders
        ensures { result ≡ self ∪ other }
    {
        ObservableOrders {
            column: self.column | other.column,
            independent: self.independent | other.independent,
        }
    }
}

// 1 for COLUMN and 2 for INDEPENDENT.
impl From<ObservableOrders> for u8 {
    ghost from_gives = { λ o k. k ≡ orders_number o };

    fn from(o: ObservableOrders) -> u8 {
        if o.column {
            if o.independent { 3 } else { 1 }
        } else {
            if o.independent { 2 } else { 0 }
        }
    }
}

// Back from the number; no set has one above 3.
impl From<u8> for ObservableOrders {
    ghost from_gives = { λ k o. o ≡ orders_of k };

    fn from(k: u8) -> ObservableOrders {
        ObservableOrders {
            column: k % 2 == 1,
            independent: 2 <= k,
        }
    }
}

// The order accumulator.
#[derive(Clone, Copy)]
pub struct ExprOrderAcc {
    pub acc: ObservableOrders,
    // Were expressions of different orders projected beside each other?
    pub saw_mixed_inputs: bool,
    pub num_ordered_inputs: u8,
    // Of no account while there is none. The Rust has an Option here; `num_ordered_inputs` says already whether there is one.
    pub last_ordered_node: u8,
}

impl ExprOrderAcc {
    pub fn add(self, right: ObservableOrders, right_node: u8) -> ExprOrderAcc
        requires { self.num_ordered_inputs < 255 }
        ensures { result ≡ add self right right_node }
    {
        let acc = self.acc;
        let empty = right.is_empty();
        let mixed = (self.saw_mixed_inputs | (acc.independent & !empty))
            | (right.independent & !acc.is_empty());
        if empty {
            return ExprOrderAcc {
                acc: acc.union(right),
                saw_mixed_inputs: mixed,
                num_ordered_inputs: self.num_ordered_inputs,
                last_ordered_node: self.last_ordered_node,
            };
        }
        ExprOrderAcc {
            acc: acc.union(right),
            saw_mixed_inputs: mixed,
            num_ordered_inputs: self.num_ordered_inputs + 1,
            last_ordered_node: right_node,
        }
    }
}
