// What the first pass notes of a formula for the second: its operands and its operators, in the order of their bytes.
ghost use Rattle.std.specs.Prelude.{◌≡◌};
ghost use Rattle.formula.specs.Items.{notes, with_item};

#[derive(Clone, Copy)]
pub enum Kind {
    Letter,
    Number,
    // With the level of its sign.
    Operator(u8),
}

// An operand or an operator. Each has one E line.
#[derive(Clone, Copy)]
pub struct Item {
    // Brackets that are open where it stands.
    pub depth: u16,
    pub kind: Kind,
}

// One for each of 128 lines, and one for an item too many.
pub const PLACES: usize = 129;

// One item more, if a place is left.
pub fn note(places: &mut [Item], count: &mut usize, item: Item)
    ensures { notes places.new count.new ≡ with_item item (notes places.old count.old) }
{
    if *count < places.len() {
        places[*count] = item;
        *count += 1;
    }
}
