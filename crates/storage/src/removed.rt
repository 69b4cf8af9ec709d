// Which sorts a run removed, and how many: a mark for each of the 32 steps that a plan may have.
ghost use Rattle.std.specs.Prelude.{◌≡◌, ◌+◌, ◌<◌, ◌^◌, [], false, length, get_or};

// Beside the finished sheet, which has their number alone. What a mark says of the run (RemovedAre) is no fact of the type: the
// definition's list would be a field.
#[derive(Clone, Copy)]
pub struct Removed {
    pub marks: [bool; 32],
    pub count: usize,
    pub ghost sized: { length marks ≡ 32 },
}

impl Removed {
    ghost use Rattle.storage.specs.Removed.{RemovedAre, OneMore};

    pub fn new() -> Removed
        ensures { RemovedAre [] result }
    {
        Removed {
            marks: [false; 32],
            count: 0,
        }
    }

    // Step n is removed: one more.
    pub fn note(&mut self, n: u8)
        requires step { n < 32 }
        requires few { self.old.count + 1 < 2 ^ 64 }
        ensures { OneMore n self.old self.new }
    {
        self.marks[usize::from(n)] = true;
        self.count += 1;
    }

    // Was step n removed?
    pub fn has(&self, n: usize) -> bool
        requires { n < 32 }
        ensures { result ≡ get_or self.now.marks n false }
    {
        self.marks[n]
    }
}
