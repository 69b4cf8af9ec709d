// What a call reports for the additions that stand above it: its answer, and which sorts the run removed.
use plan::answer::Finished;
use storage::removed::Removed;

// `Finished` is what the definition says of a finished sheet, and holds no array. Whatever else an addition has to know of a run stands
// beside it here.
#[derive(Clone, Copy)]
pub struct Report {
    pub finished: Finished,
    pub removed: Removed,
}
