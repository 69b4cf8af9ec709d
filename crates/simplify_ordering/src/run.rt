// A run as the code holds it. `ends`, what never changes of the edges, is lent beside it to read only, so that no contract of a walk has to say
// that it stays. That its rows stand so (InRows) is no fact of a type of its own: it speaks of how many edges and steps there are, so both
// numbers would be fields there, and each contract would have to say that they are the run's.
use plan::tally::Tally;
use storage::stored::{Arena, Edges, Steps};

#[derive(Drop)]
pub struct StoredRun {
    pub arena: Arena,
    pub steps: Steps,
    pub edges: Edges,
    pub tally: Tally,
}
