// Goes through the guide's examples, and compares each with what the calls answer. data/GUIDE.md is the guide itself.
// A block of the guide stands between two lines that begin with three backquotes. The first of them may name it: `sheet`; `answer`,
// what finish prints for the last sheet; `right` and `wrong`, papers to that sheet; `formula`, a formula and its line end; `lines`, what
// formula prints for the last formula. All other blocks are passed over.
#![tactic(auto)]

ghost use Rattle.std.specs.Prelude.{◌-◌, ◌≤◌, length};
ghost use Rattle.std.specs.Iterator.{at_most};

use marking::answer::Mark;
use std::fmt::{Display, Formatter, Write};
use std::{fmt, io};
use streams::read_path;
use writing::lines::put_refusal;

// What a block is, by the name on its first line.
#[derive(Clone, Copy)]
enum Kind {
    Sheet,
    Answer,
    Paper(Mark),
    Formula,
    Lines,
    Other,
}

#[derive(Clone, Copy)]
struct Block<'a> {
    kind: Kind,
    text: &'a [u8],
}

// The blocks of what is left of a text.
#[derive(Drop)]
struct Blocks<'a> {
    rest: &'a [u8],
}

// How many sheets and formulas there were, how many examples agreed, how many did not, and the first of these, counted from 1.
#[derive(Clone, Copy, Default)]
struct Score {
    sheets: u64,
    formulas: u64,
    agree: u64,
    differ: u64,
    first: Option<u64>,
}

impl Score {
    fn count_sheet(&mut self) {
        self.sheets = self.sheets.saturating_add(1);
    }

    fn count_formula(&mut self) {
        self.formulas = self.formulas.saturating_add(1);
    }

    fn count(&mut self, agrees: bool) {
        if agrees {
            self.agree = self.agree.saturating_add(1);
        } else {
            self.differ = self.differ.saturating_add(1);
            let number = self.agree.saturating_add(self.differ);
            self.first = self.first.or(Some(number));
        }
    }
}

impl Display for Score {
    fn fmt<W: Write>(&self, f: &mut Formatter<W>) -> fmt::Result {
        let Score {
            sheets,
            formulas,
            agree,
            differ,
            first,
        } = *self;
        write!(
            f,
            "{sheets} sheets, {formulas} formulas, {agree} examples agree, {differ} differ"
        )?;
        if let Some(first) = first {
            write!(f, "\nthe first that differs is {first}")?;
        }
        Ok(())
    }
}

// The kind of the block that a line begins.
fn kind_of(line: &[u8]) -> Option<Kind> {
    match line.strip_prefix(b"```")? {
        b"sheet\n" => Some(Kind::Sheet),
        b"answer\n" => Some(Kind::Answer),
        b"right\n" => Some(Kind::Paper(Mark::Right)),
        b"wrong\n" => Some(Kind::Paper(Mark::Wrong)),
        b"formula\n" => Some(Kind::Formula),
        b"lines\n" => Some(Kind::Lines),
        _ => Some(Kind::Other),
    }
}

// The first line, its byte 10 with it, and what stands behind it.
fn split_line(text: &[u8]) -> (&[u8], &[u8])
    ensures { length result.1.now ≤ length text.now - 1 }
{
    let end = text.iter().position(|byte| *byte == b'\n');
    text.split_at(end.map_or(text.len(), |i| i + 1))
}

// What stands before the next line with three backquotes, and that line with what is behind it.
fn split_block(text: &[u8]) -> (&[u8], &[u8])
    ensures { length result.1.now ≤ length text.now }
{
    let mut rest = text;
    while !rest.is_empty() && !rest.starts_with(b"```") {
        rest = split_line(rest).1;
    }
    text.split_at(text.len() - rest.len())
}

impl<'a> Iterator for Blocks<'a> {
    type Item = Block<'a>;

    ghost remaining = { λ s. at_most (length s.rest.now) };

    fn next(&mut self) -> Option<Block<'a>> {
        while !self.rest.is_empty() {
            let (line, below) = split_line(self.rest);
            self.rest = below;
            if let Some(kind) = kind_of(line) {
                let (text, behind) = split_block(below);
                self.rest = split_line(behind).1;
                return Some(Block { kind, text });
            }
        }
        None
    }
}

// Is the block what finish prints for the sheet?
fn answer_is(sheet: &[u8], block: &[u8]) -> bool {
    let mut out = [0; 16384];
    match engine::finish(sheet, &mut out) {
        Ok(finished) => &out[..finished.length] == block,
        Err(refusal) => {
            let mut line = [0; 6];
            let n = put_refusal(&mut line, u8::from(refusal));
            &line[..n] == block
        }
    }
}

// Is the paper marked as the guide has it?
fn mark_is(sheet: &[u8], paper: &[u8], mark: Mark) -> bool {
    let mut out = [0; 16384];
    marking::mark(sheet, paper, &mut out) == Ok(mark)
}

// Is the block what formula prints for the formula?
fn lines_are(formula: &[u8], block: &[u8]) -> bool {
    let mut out = [0; 16384];
    match formula::convert(formula, &mut out) {
        Ok(length) => length == block.len() && out.starts_with(block),
        Err(refusal) => {
            let mut line = [0; 6];
            let n = formula::line::put_refusal(&mut line, refusal);
            &line[..n] == block
        }
    }
}

fn run_all(guide: &[u8]) -> Score {
    let mut score = Score::default();
    let mut sheet: &[u8] = &[];
    let mut formula: &[u8] = &[];
    let blocks = Blocks { rest: guide };
    for Block { kind, text } in blocks {
        match kind {
            Kind::Sheet => {
                score.count_sheet();
                sheet = text;
            }
            Kind::Answer => score.count(answer_is(sheet, text)),
            Kind::Paper(mark) => score.count(mark_is(sheet, text, mark)),
            Kind::Formula => {
                score.count_formula();
                // the line end, which the program takes off
                formula = text.strip_suffix(b"\n").unwrap_or(text);
            }
            Kind::Lines => score.count(lines_are(formula, text)),
            Kind::Other => {}
        }
    }
    score
}

fn main(rt: HostRuntime) -> io::Result<()> {
    // a buffer of its own: nothing here allocates
    let mut buf = [0; 65536];
    let Some(guide) = read_path(&rt, b"GUIDE.md", &mut buf) else {
        return Ok(());
    };
    let score = run_all(guide);
    println!(rt; "{score}")
}
