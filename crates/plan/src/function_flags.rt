// The flags of a Function expression: FunctionFlags of plans/options.rs, with the methods that the port calls.
ghost use Rattle.std.specs.Prelude.{◌≡◌, ◌<◌};
ghost use Rattle.plan.specs.FunctionFlags.{contains, is_elementwise, observes_input_order, terminates_input_order, non_order_producing};

// The bits are the sheet's, not the Rust's: its option a for kind 19.
#[derive(Clone, Copy)]
pub struct FunctionFlags {
    pub bits: u8,
}

impl FunctionFlags {
    pub const ROW_SEPARABLE: u8 = 1;

    pub const LENGTH_PRESERVING: u8 = 2;

    pub const NON_ORDER_OBSERVING: u8 = 4;

    pub const TERMINATES_INPUT_ORDER: u8 = 8;

    pub const RETURNS_SCALAR: u8 = 16;

    pub const NON_ORDER_PRODUCING: u8 = 32;

    // A flag is its bit and no type of its own: it is asked of any bit, and the definition asks by division too.
    pub fn contains(self, flag: u8) -> bool
        requires { 0 < flag }
        ensures { result ≡ contains self.bits flag }
    {
        self.bits / flag % 2 == 1
    }

    pub fn is_elementwise(self) -> bool
        ensures { result ≡ is_elementwise self.bits }
    {
        self.contains(FunctionFlags::ROW_SEPARABLE)
            & self.contains(FunctionFlags::LENGTH_PRESERVING)
    }

    pub fn observes_input_order(self) -> bool
        ensures { result ≡ observes_input_order self.bits }
    {
        let non_order_observing = self.contains(FunctionFlags::NON_ORDER_OBSERVING)
            | self.contains(FunctionFlags::ROW_SEPARABLE);
        !non_order_observing
    }

    pub fn terminates_input_order(self) -> bool
        ensures { result ≡ terminates_input_order self.bits }
    {
        self.contains(FunctionFlags::TERMINATES_INPUT_ORDER)
            | self.contains(FunctionFlags::RETURNS_SCALAR)
    }

    pub fn non_order_producing(self) -> bool
        ensures { result ≡ non_order_producing self.bits }
    {
        self.contains(FunctionFlags::NON_ORDER_PRODUCING)
            | self.contains(FunctionFlags::RETURNS_SCALAR)
            | self.is_elementwise()
    }
}
