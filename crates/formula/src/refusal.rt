// Why a formula is turned back: the output is as it was then.
ghost use Rattle.std.specs.Prelude.{◌≡◌};
ghost use Rattle.formula.specs.Converted.{refusal_number};

// 14 and 15 are the converter's alone, 1 and 2 mean what they mean of a sheet.
#[derive(Clone, Copy, Debug, PartialEq, Eq)]
pub enum Refusal {
    // The output has fewer than 16,384 bytes.
    ShortOutput = 1,
    // The formula has more.
    LongFormula = 2,
    // It is no formula.
    NoFormula = 14,
    // It has more than 128 E lines.
    ManyLines = 15,
}

// The number that is printed, and that C is told.
impl From<Refusal> for u8 {
    ghost from_gives = { λ x k. k ≡ refusal_number x };

    fn from(x: Refusal) -> u8 {
        x as u8
    }
}
