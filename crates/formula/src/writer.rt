// The second pass: it goes over what the first one noted, and writes each line as soon as it is complete.
ghost use Rattle.std.specs.Prelude.{◌≡◌, ◌+◌, ◌-◌, ◌*◌, ◌≤◌, [], ℕ, List, length, if◌then◌else◌};
ghost use Rattle.formula.specs.declared.items.Kind.{Kind};
ghost use Rattle.formula.specs.Converted.{text};
ghost use Rattle.formula.specs.Formula.{column, literal};
ghost use Rattle.formula.specs.Items.{as_operator, operators};
ghost use Rattle.formula.specs.Progress.{lines_of, operand_of, start};
ghost use Rattle.writing.specs.Wrote.{Wrote};

use crate::items::{Item, Kind};
use crate::line::{put_operand, put_operator};

// What an operator's line has to say of an operand: the index of its line, its S and its L.
#[derive(Clone, Copy)]
pub struct Operand {
    pub index: u8,
    pub scalar: bool,
    pub length_preserving: bool,
}

// An operator that waits for its right operand. By its weight, 5 for each open bracket and its level, it binds before what stands
// looser behind it, and what stands in an outer bracket.
#[derive(Clone, Copy)]
pub struct Waiting {
    pub weight: u32,
    pub left: Operand,
}

const NO_OPERAND: Operand = Operand {
    index: 0,
    scalar: false,
    length_preserving: false,
};

// Where the second pass stands. The operators that wait stand apart, in as many places as a formula has operators at the most.
#[derive(Drop)]
pub struct Writer {
    // The operand that came last.
    pub last: Operand,
    // How many operators wait, the last one last.
    pub count: usize,
    // How many lines were written, and how long they are.
    pub lines: u8,
    pub written: usize,
    pub ghost short: { written ≤ 18 * lines },
}

impl Writer {
    ghost use Rattle.formula.specs.Written.{Holds, Joins, LineMore, Settles, Takes, Waits};

    fn new() -> Writer
        ensures held { (waiting : List Waiting) (entry : List ℕ) → Holds entry start result waiting entry }
        ensures count { result.count ≡ 0 }
        ensures lines { result.lines ≡ 0 }
    {
        Writer {
            last: NO_OPERAND,
            count: 0,
            lines: 0,
            written: 0,
        }
    }

    // The line of an operand, a letter or a number.
    fn operand(&mut self, out: &mut [u8], number: bool)
        requires room { self.old.lines ≤ 127 }
        requires in_bounds { 16384 ≤ length out.old }
        ensures line { LineMore (if number then literal else column) (operand_of self.old.lines number) self.old self.new out.old out.new }
        ensures count { self.new.count ≡ self.old.count }
    {
        self.last = Operand {
            index: self.lines,
            scalar: number,
            length_preserving: !number,
        };
        self.written += put_operand(&mut out[self.written..], number);
        self.lines += 1;
    }

    // The operator that waits last has its right operand: its line.
    #[inline(always)]
    fn join(&mut self, waiting: &[Waiting], out: &mut [u8])
        requires some { (1 ≤ self.old.count) × (self.old.count ≤ length waiting.now) }
        requires room { self.old.lines ≤ 127 }
        requires in_bounds { 16384 ≤ length out.old }
        ensures line { Joins waiting.now self.old self.new out.old out.new }
        ensures count { self.new.count ≡ self.old.count - 1 }
    {
        self.count -= 1;
        let left = waiting[self.count].left;
        let right = self.last;
        let scalar = left.scalar & right.scalar;
        let length_preserving = left.length_preserving | right.length_preserving;
        self.written += put_operator(
            &mut out[self.written..],
            scalar,
            length_preserving,
            left.index,
            right.index,
        );
        self.last = Operand {
            index: self.lines,
            scalar,
            length_preserving,
        };
        self.lines += 1;
    }

    // The operators that wait with this weight or more have their right operands, the last one first. Inlined, as `join` is: so a byte of 64
    // operands takes 7.8 ns for 9.9 without spaces, and 9.3 for 10.4 as generated.
    #[inline(always)]
    fn settle(&mut self, waiting: &[Waiting], out: &mut [u8], weight: u32)
        requires few { self.old.count ≤ length waiting.now }
        requires room { self.old.lines + self.old.count ≤ 128 }
        requires in_bounds { 16384 ≤ length out.old }
        ensures { Settles weight waiting.now self.old self.new out.old out.new }
    {
        while self.count > 0 && waiting[self.count - 1].weight >= weight {
            self.join(waiting, out);
        }
    }

    // An operator: those that bind before it are complete, and it waits.
    fn operator(&mut self, waiting: &mut [Waiting], out: &mut [u8], weight: u32)
        requires few { self.old.count + 1 ≤ length waiting.old }
        requires room { self.old.lines + self.old.count ≤ 128 }
        requires in_bounds { 16384 ≤ length out.old }
        ensures { Waits weight self.old waiting.old self.new waiting.new out.old out.new }
    {
        self.settle(waiting, out, weight);
        waiting[self.count] = Waiting {
            weight,
            left: self.last,
        };
        self.count += 1;
    }

    // The next operand or operator.
    fn take(&mut self, waiting: &mut [Waiting], out: &mut [u8], item: Item)
        requires few { self.old.count + as_operator item.kind ≤ length waiting.old }
        requires room { self.old.lines + self.old.count ≤ 127 }
        requires in_bounds { 16384 ≤ length out.old }
        ensures { Takes item self.old waiting.old self.new waiting.new out.old out.new }
    {
        match item.kind {
            Kind::Letter => self.operand(out, false),
            Kind::Number => self.operand(out, true),
            Kind::Operator(level) => {
                let weight = 5 * u32::from(item.depth) + u32::from(level);
                self.operator(waiting, out, weight)
            }
        }
    }
}

// The lines of the items. Those of a formula of 64 operands have 63 operators, which may all wait.
pub fn write(items: &[Item], out: &mut [u8]) -> usize
    requires short { length items.now ≤ 128 }
    requires few { operators items.now ≤ 63 }
    requires in_bounds { 16384 ≤ length out.old }
    ensures { Wrote (text (lines_of items.now)) out.old out.new result }
{
    let mut writer = Writer::new();
    let mut waiting = [Waiting {
        weight: 0,
        left: NO_OPERAND,
    }; 63];
    for item in items {
        writer.take(&mut waiting, out, *item);
    }
    writer.settle(&waiting, out, 0);
    writer.written
}
