// The places that a walk goes back along, and which sorts were removed.
ghost use Rattle.std.specs.Prelude.{◌≡◌, ◌+◌, ◌≤◌, ◌<◌, ◌^◌, length};

use crate::visit::Visited;
use storage::removed::Removed;

// They are stored from the end of the array on, the last one first: from `at`, so that both walks go along a slice; a list filled from its
// front would have to be turned first. Fixed memory: a plan has at most 288 places.
#[derive(Drop)]
pub struct Back {
    pub places: [u8; 288],
    pub at: usize,
    pub removed: Removed,
    pub ghost few: { at ≤ 288 },
    pub ghost sized: { length places ≡ 288 },
}

impl Back {
    ghost use Rattle.simplify_ordering.specs.Walks.{Noted};

    // Before a walk: these sorts were removed by an earlier one.
    pub fn new(removed: Removed) -> Back
        ensures none { result.at ≡ 288 }
        ensures removed { result.removed ≡ removed }
    {
        Back {
            places: [0; 288],
            at: 288,
            removed,
        }
    }

    // After the visit to n: a settled step is a place to go back along, a removed sort is noted.
    pub fn note(&mut self, n: u8, visited: Visited)
        requires room { 1 ≤ self.old.at }
        requires step { n < 32 }
        requires few_removed { self.old.removed.count + 1 < 2 ^ 64 }
        ensures { Noted n visited self.old self.new }
    {
        match visited {
            Visited::Settled => {
                self.at -= 1;
                self.places[self.at] = n;
            }
            Visited::Removed => {
                self.removed.note(n);
            }
        }
    }
}
