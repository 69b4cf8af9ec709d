// The kinds of a plan's records in the Rust's names, and the methods that the port calls on them.
#![tactic(auto)]

pub mod aexpr; // aexpr.rt: AExpr
pub mod answer; // answer.rt: Finished
pub mod choice; // choice.rt: a choice between two values
pub mod distinct; // distinct.rt: UniqueKeepStrategy
pub mod function_flags; // function_flags.rt: FunctionFlags
pub mod function_ir; // function_ir.rt: FunctionIR
pub mod function_output; // function_output.rt: a Function's output_observable, from its input_order
pub mod ir; // ir.rt: IR
pub mod join; // join.rt: JoinType, MaintainOrderJoin
pub mod looks; // looks.rt: Before, what a look reads before it goes along the children
pub mod orders; // orders.rt: ObservableOrders, ExprOrderAcc
pub mod refusal; // refusal.rt: Refusal
pub mod rules; // rules.rt: Options, Around, Observable, Loosened, Ruled: what a rule reads and gives
pub mod sizes; // sizes.rt: the length of an array, as a fact for proofs
pub mod table; // table.rt: a kind by its number
pub mod tally; // tally.rt: Tally
