// The arena written out in place: each line's record, as the line holds it when the walks end, becomes the record of that number.
ghost use Rattle.std.specs.Prelude.{◌≡◌, ℕ, ◌<◌, ◌≤◌, length};
ghost use Rattle.storage.specs.Stored.{stored_expr, held_expr, arena_of, stored_exprs, ExprFormed, LinesHeld};
ghost use Rattle.storage.specs.Exprs.{Copyable, LineHeld, ExprStored};
ghost use Rattle.storage.specs.Held.{arena_in};

use crate::stored::{Arena, Lines};

// Record l over record p, which is behind it. Bytes, here and in the next two: while lines are written out their children need not fall,
// as those of Records do.
fn copy_record(recs: &mut [u8; 2048], l: usize, p: usize)
    requires { Copyable recs.old l p }
    ensures { ExprStored recs.old p (stored_expr recs.old l) recs.new }
{
    recs.copy_within(l * 16..l * 16 + 16, p * 16);
}

// The record that line p holds; the option of an Implode that is switched off is 0.
fn store_line(recs: &mut [u8; 2048], lines: &Lines, p: usize)
    requires { LineHeld recs.old lines.now.holds p }
    ensures { ExprStored recs.old p (held_expr recs.old lines.now.holds lines.now.off p) recs.new }
{
    let l = usize::from(lines.holds[p]);
    if l != p {
        copy_record(recs, l, p);
    }
    if lines.off[p] {
        recs[p * 16 + 3] = 0;
    }
}

// The first n lines, from the last on: no line holds a later line's record, so what is still to be read is as it was.
pub fn store_lines(recs: &mut [u8; 2048], lines: &Lines, n: usize)
    requires { LinesHeld recs.old lines.now.holds n }
    ensures stored { stored_exprs recs.new n ≡ arena_of recs.old lines.now.holds lines.now.off n }
    ensures still_formed { (i : ℕ) → i < n → ExprFormed recs.new i }
    ensures sized { length recs.new ≡ 2048 }
{
    for p in (0..n).rev() {
        store_line(recs, lines, p);
    }
}

impl Arena {
    // Every line then holds, of the records, the one of its own number.
    pub fn write_out(&mut self)
        ensures written { stored_exprs self.new.records.bytes self.new.records.count ≡ arena_in self.old }
        ensures count { self.new.records.count ≡ self.old.records.count }
    {
        let records = &mut self.records;
        let lines = &mut self.lines;
        store_lines(&mut records.bytes, lines, records.count);
    }
}
