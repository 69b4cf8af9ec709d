// What is read of a stored step: its kind and options, its first input, and its two lists of expressions.
ghost use Rattle.std.specs.Prelude.{◌≡◌, ◌<◌, ◌≤◌, length, get_or, take, drop};
ghost use Rattle.plan.specs.Kinds.{same_ir};
ghost use Rattle.plan.specs.Sheet.{step_at};
ghost use Rattle.storage.specs.Stored.{stored_step};
ghost use Rattle.storage.specs.Held.{steps_in};
ghost use Rattle.plan.specs.Visit.{options_of};
ghost use Rattle.storage.specs.Steps.{IsList};

use crate::entries::Entries;
use crate::stored::Steps;
use plan::ir::IR;
use plan::rules::Options;

// The three of bytes and a place ask only that the place is there, which is less than Steps does: reading calls them of lines that it has
// still to check.
pub fn kind_of(steps: &[u8; 1024], i: usize) -> IR
    requires { i < 32 }
    ensures { result ≡ (stored_step steps.now i).kind }
{
    IR::of_number(steps[i * 32])
}

pub fn is_kind(steps: &[u8; 1024], i: usize, kind: IR) -> bool
    requires { i < 32 }
    ensures { result ≡ same_ir (stored_step steps.now i).kind kind }
{
    kind_of(steps, i) == kind
}

// The id of a Cache.
pub fn cache_id(steps: &[u8; 1024], i: usize) -> u8
    requires { i < 32 }
    ensures { result ≡ (stored_step steps.now i).a }
{
    steps[i * 32 + 1]
}

impl Steps {
    // The first input of step i, which has one.
    pub fn first_input(&self, i: usize) -> u8
        requires step { i < self.now.count }
        requires some { 1 ≤ length (step_at (steps_in self.now) i).inputs }
        ensures { result ≡ get_or (step_at (steps_in self.now) i).inputs 0 0 }
    {
        self.bytes[i * 32 + 7]
    }

    pub fn options(&self, i: usize) -> Options
        requires { i < self.now.count }
        ensures { result ≡ options_of (step_at (steps_in self.now) i) }
    {
        let b = i * 32;
        Options {
            kind: IR::of_number(self.bytes[b]),
            a: self.bytes[b + 1],
            b: self.bytes[b + 2],
            c: self.bytes[b + 3],
            n2: self.bytes[b + 5],
        }
    }

    // The n2 list.
    pub fn exprs(&self, i: usize) -> Entries
        requires { i < self.now.count }
        ensures { IsList (step_at (steps_in self.now) i).exprs result }
    {
        let b = i * 32;
        let n1 = usize::from(self.bytes[b + 4]);
        Entries::read(&self.bytes, b + (7 + n1), self.bytes[b + 5])
    }

    // The n3 list.
    pub fn aggs(&self, i: usize) -> Entries
        requires { i < self.now.count }
        ensures { IsList (step_at (steps_in self.now) i).aggs result }
    {
        let b = i * 32;
        let n1 = usize::from(self.bytes[b + 4]);
        let n2 = usize::from(self.bytes[b + 5]);
        Entries::read(&self.bytes, b + (7 + (n1 + n2)), self.bytes[b + 6])
    }
}
