// What the call answers: a finished sheet, or why the sheet is refused.

// The finished sheet stands at the front of the output: where its E, P and G lines and the whole end there, and the tallies of
// its T line. Places and no slices: the output stays the caller's to change, and C is told the length. It is the definition's own type,
// which has the tallies apart.
#[derive(Clone, Copy)]
pub struct Finished {
    pub exprs: usize,
    pub steps: usize,
    pub edges: usize,
    pub length: usize,
    pub removed: usize,
    pub visits: u64,
    pub looks: u64,
}
