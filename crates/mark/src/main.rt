// Marks a paper against a sheet, two files named as arguments: `right`, `wrong`, or the refusal's number, on standard output.
#![tactic(auto)]

ghost use Rattle.std.specs.Prelude.{◌≤◌, length, IfSome};

use marking::line::put_answer;
use std::env::Env;
use std::fs::Files;
use streams::{argument, has_argument, read_path, write_out};

// Reads the file that argument i names.
fn read_argument<'a, R: Env + Files + Eprint>(
    rt: &R,
    i: usize,
    buf: &'a mut [u8],
) -> Option<&'a [u8]>
    ensures { IfSome result (λ bytes. length bytes.now ≤ length buf.old) }
{
    let mut path = [0; 4096];
    read_path(rt, argument(rt, i, &mut path), buf)
}

// Did all of the mark's line go out?
fn print_mark(rt: &(impl Print + Eprint), sheet: &[u8], paper: &[u8]) -> bool {
    // a buffer of its own: nothing here allocates
    let mut out = [0; 16384];
    let answer = marking::mark(sheet, paper, &mut out);
    let mut line = [0; 6];
    let n = put_answer(&mut line, answer);
    write_out(rt, &line[..n])
}

// A sheet of more than 16,384 bytes is refused, and a paper of more is wrong: one byte more is all that has to be read.
fn main(rt: HostRuntime) {
    if !has_argument(&rt, 2) || has_argument(&rt, 3) {
        let _ = eprintln!(rt; "usage: mark SHEET PAPER");
        return;
    }
    let mut sheet = [0; 16385];
    let Some(sheet) = read_argument(&rt, 1, &mut sheet) else {
        return;
    };
    let mut paper = [0; 16385];
    let Some(paper) = read_argument(&rt, 2, &mut paper) else {
        return;
    };
    print_mark(&rt, sheet, paper);
}
