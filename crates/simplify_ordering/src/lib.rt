// A visit to a step (simplify_ir_node_orders) and the two walks: mod.rs.
#![tactic(auto)]

pub mod back; // back.rt: the places that a walk goes back along
pub mod run; // run.rt: a run as the code holds it
pub mod implode; // implode.rt: the Implodes that GroupBy appends
pub mod looks; // looks.rt: the looks of a visit
pub mod visit; // visit.rt: simplify_ir_node_orders
pub mod walks; // walks.rt: the downward and the upward walk
