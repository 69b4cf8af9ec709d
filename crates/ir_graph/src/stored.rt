// A stored step's inputs, pushed onto a list.
ghost use Rattle.std.specs.Prelude.{◌≡◌, ◌+◌, ◌≤◌, ◌<◌, ◌++◌, length};
ghost use Rattle.storage.specs.Stored.{stored_step, StepFormed};

use crate::places::Places;
use storage::lines::inputs_of;

// Bytes: it asks that step i is formed, and nothing of the others.
pub fn copy_inputs(steps: &[u8; 1024], i: usize, list: &mut Places)
    requires i_bound { i < 32 }
    requires step_formed { StepFormed steps.now i }
    requires room { length list.old.items + length (stored_step steps.now i).inputs ≤ 288 }
    ensures { list.new.items ≡ list.old.items ++ (stored_step steps.now i).inputs }
{
    // by `room` they fit
    let _fits = list.try_extend_from_slice(inputs_of(steps, i));
}
