// The edges of one step, numbered in a row as they are made.
ghost use Rattle.std.specs.Prelude.{ℕ, ◌+◌, ◌≤◌, ◌<◌, length, get_or};
ghost use Rattle.ir_graph.specs.Edges.{Linked};

use plan::sizes::size;
use storage::edges::make_edge;
use storage::stored::Edges;

// An edge from each input of the step, behind those made before.
pub fn link(step: u8, inputs: &[u8], ends: &mut [u8; 544], edges: &mut Edges)
    requires few_inputs { length inputs.now ≤ 8 }
    requires room { edges.old.count + length inputs.now ≤ 256 }
    requires inputs_there { (k : ℕ) → k < length inputs.now → get_or inputs.now k 0 < 255 }
    ensures { Linked step inputs.now ends.old edges.old.bytes edges.old.count ends.new edges.new.bytes edges.new.count }
{
    for (k, input) in inputs.iter().enumerate() {
        make_edge(ends, &mut edges.bytes, edges.count, step, k as u8, *input);
        size(&edges.bytes);
        edges.count += 1;
    }
}
