// How often numbers are named: a count for each number, up to 2, which stands for more as well.
ghost use Rattle.std.specs.Prelude.{◌≡◌, ◌<◌, List, ℕ, get_or};

use std::marker::Model;

// A struct's ghost field may hold facts, and data only where the struct owns memory by a formula of its own (`also_owns`) and each method
// is proved by hand. So no list of names is kept beside the counts: contracts see the counts, and what a list of names makes of them.
#[derive(Drop)]
pub struct Namings {
    counts: [u8; 256],
}

impl Model for Namings {
    ghost Value = { List ℕ };

    ghost view = { λ n. n.counts };
}

impl Namings {
    ghost use Rattle.reading.specs.Uses.{none_named, named_once, named_each};

    pub fn new() -> Namings
        ensures { result ≡ none_named }
    {
        Namings { counts: [0; 256] }
    }

    // One more naming of q.
    pub fn count(&mut self, q: u8)
        ensures { self.new ≡ named_once self.old q }
    {
        let at = usize::from(q);
        let c = self.counts[at];
        if c < 2 {
            self.counts[at] = c + 1;
        }
    }

    // One more naming of each of the numbers.
    pub fn count_all(&mut self, numbers: &[u8])
        ensures { self.new ≡ named_each self.old numbers.now }
    {
        for q in numbers {
            self.count(*q);
        }
    }

    pub fn times(&self, q: usize) -> u8
        requires { q < 256 }
        ensures { result ≡ get_or self.now q 0 }
    {
        self.counts[q]
    }
}
