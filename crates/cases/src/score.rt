// How many cases of a folder agree.
ghost use Rattle.std.specs.Prelude.{◌≡◌, ◌+◌, ◌<◌, ◌≤◌};

use std::fmt;
use std::fmt::{Display, Formatter, Write};

// How many cases there are, how many of them agree, and the first that does not, counted from 1.
#[derive(Clone, Copy)]
pub struct Score {
    pub all: usize,
    pub agree: usize,
    pub first: Option<usize>,
    ghost among_all: { agree ≤ all },
}

impl Score {
    pub const NONE: Score = Score {
        all: 0,
        agree: 0,
        first: None,
    };

    pub fn count(&mut self, agrees: bool)
        ensures { self.old.all < usize.MAX → self.new.all ≡ self.old.all + 1 }
    {
        self.all = self.all.saturating_add(1);
        if agrees {
            self.agree = self.agree.saturating_add(1);
        } else {
            self.first = self.first.or(Some(self.all));
        }
    }
}

impl Display for Score {
    fn fmt<W: Write>(&self, f: &mut Formatter<W>) -> fmt::Result {
        let Score { all, agree, first } = *self;
        write!(f, "{agree} of {all} agree")?;
        if let Some(first) = first {
            write!(f, "\nthe first that differs is {first}")?;
        }
        Ok(())
    }
}
