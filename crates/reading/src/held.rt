// The stored lines of a plan, lent: their bytes, with how many lines they hold.
ghost use Rattle.storage.specs.Stored.{StepsHeld};
ghost use Rattle.reading.specs.Held.{ExprsHeld};

// The E lines, at a stride of 16.
#[derive(Clone, Copy)]
pub struct ExprLines<'a> {
    pub bytes: &'a [u8; 2048],
    pub count: usize,
    pub ghost held: { ExprsHeld bytes.now count },
}

// The P lines, at a stride of 32.
#[derive(Clone, Copy)]
pub struct StepLines<'a> {
    pub bytes: &'a [u8; 1024],
    pub count: usize,
    pub ghost held: { StepsHeld bytes.now count },
}
