// The run of a step's in-edges.
ghost use Rattle.std.specs.Prelude.{◌≤◌, ◌<◌};

// A step and the numbers of its in-edges: those from one up to the other. That they are its in-edges (InRun) is no fact of the type: it
// would need `ends` and how many edges there are as fields, and what takes edges beside it would have to say that they are as many.
#[derive(Clone, Copy)]
pub struct InEdges {
    pub of: u8,
    pub from: usize,
    pub to: usize,
    pub ghost small: { of < 32 },
    pub ghost order: { from ≤ to },
    pub ghost few: { to ≤ 256 },
}
