// The visiting list and the edges: ir_node_key.rs and ir_graph.rs.
#![tactic(auto)]

pub mod edges; // edges.rt: the edges of one step
pub mod first_met; // first_met.rt: the line of each cache id that is met first
pub mod hits; // hits.rt: the first pass
pub mod ir_graph; // ir_graph.rt: the second pass
pub mod ir_node_key; // ir_node_key.rt: IRNodeKey
pub mod places; // places.rt: Places, a list of steps
pub mod roots; // roots.rt: the roots
pub mod stored; // stored.rt: a stored step's inputs, pushed onto a list
pub mod update_cache_nodes; // update_cache_nodes.rt: update_cache_nodes
