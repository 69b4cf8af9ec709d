// A kind by its number in the table of kinds.
ghost use Rattle.std.specs.Prelude.{◌≡◌};
ghost use Rattle.plan.specs.Kinds.{listed};

use crate::refusal::Refusal;

// The kind that stands there, or the refusal of a number past the table. Each kind's `of_number` is one call beside its `try_from`: a trait
// for the six would name each kind's first and its law again, and be imported wherever a kind is read.
pub fn kind_at<T: Copy>(kinds: &[T], k: u8) -> Result<T, Refusal>
    ensures { result ≡ listed kinds.now k }
{
    kinds.get(usize::from(k)).copied().ok_or(Refusal::Table)
}
