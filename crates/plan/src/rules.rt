// What a visit's rule reads and gives: the same types in the definition and in the code.
use crate::ir::IR;
use crate::orders::ObservableOrders;

// A step's kind, its options, and how many expressions its n2 list has. The options are the numbers of the sheet: what each means goes by
// the kind, and a rule turns those that it reads into the Rust's enums (JoinType, UniqueKeepStrategy and so on). The definition's
// Options are these, numbers with them.
#[derive(Clone, Copy)]
pub struct Options {
    pub kind: IR,
    pub a: u8,
    pub b: u8,
    pub c: u8,
    pub n2: u8,
}

// A step's edges as the visit finds them: are they unordered?
#[derive(Clone, Copy)]
pub struct Around {
    // all in_edges
    pub ins: bool,
    // the one of slot 0: in_edge, in_edge_lhs
    pub in0: bool,
    // the one of slot 1: in_edge_rhs, idxs_edge
    pub in1: bool,
    // the one out_edge
    pub out: bool,
    // all out_edges
    pub outs: bool,
}

// What the looks along the n2 list and along the n3 list answered, and internally_observed_orders.
#[derive(Clone, Copy)]
pub struct Observable {
    pub exprs: ObservableOrders,
    pub aggs: ObservableOrders,
    pub internal: ObservableOrders,
}

// The edges that a rule loosens, that is sets to Edge::Unordered: into slot 0, into the later slots, out.
#[derive(Clone, Copy)]
pub struct Loosened {
    pub in0: bool,
    pub later: bool,
    pub out: bool,
}

// What a rule gives: the step's options after the visit, and the edges loosened.
#[derive(Clone, Copy)]
pub struct Ruled {
    pub options: Options,
    pub loosened: Loosened,
}
