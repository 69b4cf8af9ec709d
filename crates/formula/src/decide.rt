// The first pass: is it a formula, and has it few enough lines? It writes nothing, and notes what the second pass goes by.
ghost use Rattle.std.specs.Prelude.{◌≡◌, ◌≤◌, IfOk, Some, length, take};
ghost use Rattle.formula.specs.declared.items.Item.{Item};
ghost use Rattle.formula.specs.Converted.{answer_number, judged, outcome_of};
ghost use Rattle.formula.specs.Formula.{Tree};
ghost use Rattle.formula.specs.Items.{items_of};
ghost use Rattle.formula.specs.Parse.{parse};

use crate::items::Item;
use crate::refusal::Refusal;
use crate::seen::Seen;

// The result is how many items the formula has: they stand in the first places. What stands in the others, and in all of them if the
// formula is turned back, is left free.
pub fn decide(formula: &[u8], places: &mut [Item]) -> Result<usize, Refusal>
    requires short { length formula.now ≤ 16384 }
    requires places { length places.old ≡ 129 }
    ensures number { answer_number (outcome_of result) ≡ answer_number (judged formula.now) }
    ensures noted { IfOk result (λ n. (t : Tree) → parse formula.now ≡ Some t → take n places.new ≡ items_of 0 t) }
    ensures few { IfOk result (λ n. n ≤ 128) }
    ensures size { length places.new ≡ length places.old }
{
    let mut seen = Seen::new();
    let mut count = 0;
    for b in formula {
        seen = seen
            .after(*b, places, &mut count)
            .ok_or(Refusal::NoFormula)?;
    }
    seen.end(count)
}
