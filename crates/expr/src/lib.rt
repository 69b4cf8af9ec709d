// The looks at expression records: ExprOrderSimplifier of expr.rs. It knows no edge and no step.
#![tactic(auto)]

pub mod after; // after.rt: what a record does once its children have answered
pub mod before; // before.rt: what stands before the looks along a record's children
pub mod eos; // eos.rt: what the looks of a visit own, in one number
pub mod look; // look.rt: a look at a record, and along its children
pub mod projected; // projected.rt: a list of projected expressions, and the start of a visit
pub mod record; // record.rt: a record's children in the order of the looks
pub mod seen; // seen.rt: what is seen of a record's children
