// What a visit reads of a step and its edges, and what it makes of them: the match of mod.rs and unlink_node. It knows no arena.
#![tactic(auto)]

pub mod around; // around.rt: a step's edges as a visit finds them
pub mod in_edges; // in_edges.rt: the run of a step's in-edges
pub mod joins; // joins.rt: the rule of a Join
pub mod loosen; // loosen.rt: the edges that a rule loosens
pub mod rules; // rules.rt: what a visit makes of a step and its edges
pub mod unlink; // unlink.rt: unlink_node
