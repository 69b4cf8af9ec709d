// What a visit changes of a stored step: its options, an input, an entry of its n3 list.
ghost use Rattle.std.specs.Prelude.{◌≡◌, ◌<◌, length, set};
ghost use Rattle.plan.specs.Sheet.{step_at};
ghost use Rattle.plan.specs.Visit.{with_options, with_input, with_aggs};
ghost use Rattle.storage.specs.Held.{steps_in};

use crate::stored::Steps;
use plan::rules::Options;

impl Steps {
    // Kind and options of step i.
    pub fn store_options(&mut self, i: usize, o: Options)
        requires { i < self.old.count }
        ensures stored { steps_in self.new ≡ set (steps_in self.old) i (with_options o (step_at (steps_in self.old) i)) }
        ensures count { self.new.count ≡ self.old.count }
    {
        let b = i * 32;
        let steps = &mut self.bytes;
        steps[b] = u8::from(o.kind);
        steps[b + 1] = o.a;
        steps[b + 2] = o.b;
        steps[b + 3] = o.c;
    }

    // The input in a slot of step i.
    pub fn store_input(&mut self, i: usize, slot: usize, input: u8)
        requires step { i < self.old.count }
        requires slot { slot < length (step_at (steps_in self.old) i).inputs }
        ensures stored { steps_in self.new ≡ set (steps_in self.old) i (with_input slot input (step_at (steps_in self.old) i)) }
        ensures count { self.new.count ≡ self.old.count }
    {
        self.bytes[i * 32 + (7 + slot)] = input;
    }

    // Entry k of the n3 list of step i.
    pub fn store_agg(&mut self, i: usize, k: usize, agg: u8)
        requires step { i < self.old.count }
        requires entry { k < length (step_at (steps_in self.old) i).aggs }
        ensures stored { steps_in self.new ≡ set (steps_in self.old) i (with_aggs (set (step_at (steps_in self.old) i).aggs k agg) (step_at (steps_in self.old) i)) }
        ensures count { self.new.count ≡ self.old.count }
    {
        let b = i * 32;
        let n1 = usize::from(self.bytes[b + 4]);
        let n2 = usize::from(self.bytes[b + 5]);
        self.bytes[b + (7 + (n1 + n2 + k))] = agg;
    }
}
