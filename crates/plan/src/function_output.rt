// A Function's output_observable from its input_order: a branch of four ways in expr.rs, arithmetic here, as change request 3 asks.
ghost use Rattle.std.specs.Prelude.{◌≡◌};
ghost use Rattle.plan.specs.Look.{function_output};

use crate::orders::ObservableOrders;

// In numbers, 1 for yes and 0 for no: COLUMN comes from the input alone, where its order is not terminated; INDEPENDENT is
// produced, or else comes from the input in the same way.
pub fn function_output(
    terminates_input_order: bool,
    non_order_producing: bool,
    input_order: ObservableOrders,
) -> ObservableOrders
    ensures { result ≡ function_output terminates_input_order non_order_producing input_order }
{
    let t = terminates_input_order as u8;
    let n = non_order_producing as u8;
    let column = (1 - t) * (input_order.column as u8);
    let independent = (1 - n) + (1 - t) * n * (input_order.independent as u8);
    ObservableOrders {
        column: column == 1,
        independent: independent == 1,
    }
}
