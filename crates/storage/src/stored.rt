// A plan as it is stored: the arena, the steps, and what changes of the edges, each with how many there are. Fixed memory: nothing here
// allocates, and a lent array of bytes is never copied.
ghost use Rattle.std.specs.Prelude.{◌≡◌, ℕ, ◌≤◌, ◌<◌, length, get_or};
ghost use Rattle.storage.specs.Stored.{StepsHeld};
ghost use Rattle.storage.specs.Based.{Based};
ghost use Rattle.storage.specs.Start.{OwnLines, NoneOff};

// The bytes are the numbers of lines as a sheet has them, and no array of structs: reading stores a line's numbers by one copy, writing prints
// them as the slice that they are, and both are lent these arrays. None is a Model seen as its list: what is read of one place is asked of
// the bytes. So that the number of records, steps or edges stays is a clause where they are lent to be changed; that it follows
// from the equation of the lists is a law that each caller would have to cite.

// The base records, at a stride of 16: a line of the arena holds one of them.
#[derive(Drop)]
pub struct Records {
    pub bytes: [u8; 2048],
    pub count: usize,
    pub ghost based: { Based bytes count },
    pub ghost sized: { length bytes ≡ 2048 },
}

// The lines of the arena, as looks change them: the record that each holds now, and whether its Implode was switched off. Two arrays and no
// array of pairs: what looks ask and promise of the records that lines hold (Kept, Readable, is_replaced_line) is said of that list
// alone, and would else be said of its image.
#[derive(Drop)]
pub struct Lines {
    pub holds: [u8; 128],
    pub off: [bool; 128],
    pub ghost sized: { length holds ≡ 128 },
    pub ghost off_sized: { length off ≡ 128 },
}

impl Lines {
    // As a sheet sends them.
    pub fn new() -> Lines
        ensures own { OwnLines result.holds }
        ensures none_off { NoneOff result.off }
    {
        Lines {
            holds: std::array::from_fn(|i| i as u8),
            off: [false; 128],
        }
    }
}

// A line of one of the records holds that record or one before it; what the other lines hold is never read.
#[derive(Drop)]
pub struct Arena {
    pub records: Records,
    pub lines: Lines,
    pub ghost below: { (q : ℕ) → q < records.count → get_or lines.holds q 0 ≤ q },
}

// The numbers of each P line, as they stand on it, at a stride of 32.
#[derive(Drop)]
pub struct Steps {
    pub bytes: [u8; 1024],
    pub count: usize,
    pub ghost held: { StepsHeld bytes count },
}

// Of each edge the step that produces it, and whether it is unordered.
#[derive(Drop)]
pub struct Edges {
    pub bytes: [u8; 512],
    pub count: usize,
    pub ghost few: { count ≤ 256 },
    pub ghost sized: { length bytes ≡ 512 },
}
