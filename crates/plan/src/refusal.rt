// Why a sheet is refused: the output is as it was then.
ghost use Rattle.std.specs.Prelude.{◌≡◌};
ghost use Rattle.plan.specs.Refusals.{refusal_number};

// In the order of their numbers, not in that in which a sheet is gone through.
#[derive(Clone, Copy, Debug, PartialEq, Eq)]
pub enum Refusal {
    // The output has fewer than 16,384 bytes.
    ShortOutput = 1,
    // The sheet has more.
    LongSheet = 2,
    // A line is not of the form of an E or a P line, or an E line comes after a P line.
    Form = 3,
    // A line's kind, option or count is outside its table.
    Table = 4,
    // There are too many lines.
    Limits = 5,
    // There is no P line.
    NoPlan = 6,
    // A line refers to what it may not.
    Reference = 7,
    // A line is not named.
    Unused = 8,
    // A StructField stands under no evaluation child.
    StructField = 9,
    // The keys of a Join are not elementwise.
    JoinKeys = 10,
    // Those of a partitioned Sink are not.
    SinkKeys = 11,
    // A line is named more than once that may be named once.
    UsedTwice = 12,
    // Two Cache lines have one id.
    CacheId = 13,
}

// The number that is printed, and that C is told.
impl From<Refusal> for u8 {
    ghost from_gives = { λ x k. k ≡ refusal_number x };

    fn from(x: Refusal) -> u8 {
        x as u8
    }
}
