// The lines of a sheet, one after the other: each is read, checked and stored (refusals 3, 4, 5).
ghost use Rattle.std.specs.Prelude.{◌≡◌, [], ◌∷◌, ◌+◌, ◌*◌, ◌≤◌, ◌<◌, length, set};
ghost use Rattle.plan.specs.Sheet.{lettered};
ghost use Rattle.reading.specs.Line.{numbers_of, line_here};
ghost use Rattle.reading.specs.Lines.{pasted, aggs_of, Sound, LinesRead};

use crate::line::Numbers;
use crate::tables::{expr_fits, step_fits};
use plan::ir::IR;
use plan::refusal::Refusal;

// How many E lines, agg entries and P lines were taken.
#[derive(Clone, Copy)]
pub struct LineCounts {
    pub exprs: usize,
    pub aggs: usize,
    pub steps: usize,
}

// The lines that were taken: stored in two lent buffers, and counted.
#[derive(Drop)]
pub struct Taken<'a> {
    pub exprs: &'a mut [u8; 2048],
    pub steps: &'a mut [u8; 1024],
    pub counts: LineCounts,
    pub ghost sound: { Sound exprs.now steps.now counts },
}

// The numbers of the i-th E line, with the count of its children.
fn store_expr(exprs: &mut [u8; 2048], i: usize, v: [u8; 32], count: u8)
    requires { (i < 128) × (count ≤ 8) }
    ensures { (exprs.new ≡ pasted exprs.old (i * 16) (set v 12 count) 16) × (length exprs.old ≡ 2048) }
{
    let mut w = v;
    w[12] = count;
    exprs[i * 16..i * 16 + 16].copy_from_slice(&w[..16]);
}

// The numbers of the i-th P line.
fn store_step(steps: &mut [u8; 1024], i: usize, v: [u8; 32])
    requires { i < 32 }
    ensures { (steps.new ≡ pasted steps.old (i * 32) v 32) × (length steps.old ≡ 1024) }
{
    steps[i * 32..i * 32 + 32].copy_from_slice(&v);
}

fn agg_entries(kind: IR, n3: u8) -> usize
    ensures { (result ≡ aggs_of kind n3) × (result < 256) }
{
    if kind == IR::GroupBy {
        return usize::from(n3);
    }
    0
}

impl Taken<'_> {
    ghost use Rattle.reading.specs.Taken.{LineRead, AllRead, SameBuffers};

    // What follows an E line's letter. No E line comes after a P line.
    fn read_expr(&mut self, s: &[u8]) -> Result<usize, Refusal>
        ensures same { SameBuffers self.old self.new }
        ensures line { LineRead (lettered (69 ∷ []) (numbers_of s.now)) (69 ∷ s.now) self.old self.new result }
    {
        let mut numbers = Numbers::new();
        let len = numbers.read(s)?;
        if numbers.count < 4 || self.counts.steps != 0 {
            return Err(Refusal::Form);
        }
        let count = numbers.count - 4;
        if !expr_fits(&numbers.kept, count) {
            return Err(Refusal::Table);
        }
        if 128 <= self.counts.exprs {
            return Err(Refusal::Limits);
        }
        store_expr(self.exprs, self.counts.exprs, numbers.kept, count as u8);
        self.counts.exprs += 1;
        Ok(len + 1)
    }

    // What follows a P line's letter.
    fn read_step(&mut self, s: &[u8]) -> Result<usize, Refusal>
        ensures same { SameBuffers self.old self.new }
        ensures line { LineRead (lettered (80 ∷ []) (numbers_of s.now)) (80 ∷ s.now) self.old self.new result }
    {
        let mut numbers = Numbers::new();
        let len = numbers.read(s)?;
        if numbers.count < 7 {
            return Err(Refusal::Form);
        }
        if !step_fits(&numbers.kept, numbers.count) {
            return Err(Refusal::Table);
        }
        let aggs = self.counts.aggs + agg_entries(IR::of_number(numbers.kept[0]), numbers.kept[6]);
        if 32 <= self.counts.steps || 128 < self.counts.exprs + aggs {
            return Err(Refusal::Limits);
        }
        store_step(self.steps, self.counts.steps, numbers.kept);
        self.counts.aggs = aggs;
        self.counts.steps += 1;
        Ok(len + 1)
    }

    // The line at the front of the bytes.
    fn read_line(&mut self, s: &[u8]) -> Result<usize, Refusal>
        ensures same { SameBuffers self.old self.new }
        ensures line { LineRead (line_here s.now) s.now self.old self.new result }
    {
        match s {
            [b'E', rest @ ..] => self.read_expr(rest),
            [b'P', rest @ ..] => self.read_step(rest),
            _ => Err(Refusal::Form),
        }
    }

    // The lines of all the bytes.
    fn read_lines(&mut self, sheet: &[u8]) -> Result<(), Refusal>
        ensures same { SameBuffers self.old self.new }
        ensures lines { AllRead sheet.now self.old self.new result }
    {
        let mut rest = sheet;
        while !rest.is_empty() {
            let len = self.read_line(rest)?;
            rest = &rest[len..];
        }
        Ok(())
    }
}

// All lines of a sheet.
pub fn read_lines(
    sheet: &[u8],
    exprs: &mut [u8; 2048],
    steps: &mut [u8; 1024],
) -> Result<LineCounts, Refusal>
    ensures { LinesRead sheet.now exprs.new steps.new result }
{
    let counts = LineCounts {
        exprs: 0,
        aggs: 0,
        steps: 0,
    };
    let mut taken = Taken {
        exprs,
        steps,
        counts,
    };
    taken.read_lines(sheet)?;
    Ok(taken.counts)
}
