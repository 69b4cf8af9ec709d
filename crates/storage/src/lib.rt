// How the code stores a sheet, in specs/ with laws in proofs/, and what it reads and changes there.
#![tactic(auto)]

pub mod arena; // arena.rt: the arena written out, a record for each line
pub mod edges; // edges.rt: the stored edges
pub mod entries; // entries.rt: a list of at most eight lines
pub mod exprs; // exprs.rt: what is read of a stored expression
pub mod lines; // lines.rt: what is lent out of a stored line
pub mod records; // records.rt: what is changed of the stored expressions
pub mod removed; // removed.rt: which sorts a run removed
pub mod steps; // steps.rt: what is read of a stored step
pub mod stored; // stored.rt: the structs of a stored plan
pub mod store; // store.rt: what a visit changes of a stored step
