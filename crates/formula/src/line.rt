// The lines of a formula, and that of a refusal, written at the front of what is lent. The result is how much was written.
ghost use Rattle.std.specs.Prelude.{◌≤◌, length, if◌then◌else◌};
ghost use Rattle.plan.specs.Text.{expr_line};
ghost use Rattle.writing.specs.Refusal.{refusal_line};
ghost use Rattle.writing.specs.Wrote.{Wrote};
ghost use Rattle.formula.specs.Converted.{refusal_number};
ghost use Rattle.formula.specs.LineFront.{front};
ghost use Rattle.formula.specs.Formula.{binary, column, literal};

use crate::refusal::Refusal;
use writing::fields::{put_byte, put_field};
use writing::lines::put_line;
use writing::words::put_word;

// A letter's line, or a number's.
pub fn put_operand(out: &mut [u8], number: bool) -> usize
    requires { 10 ≤ length out.old }
    ensures { Wrote (expr_line (if number then literal else column)) out.old out.new result × (result ≤ 10) }
{
    if number {
        put_word(out, b"E,1,1,0,0\n")
    } else {
        put_word(out, b"E,0,0,1,0\n")
    }
}

// An operator's line as far as its children.
fn put_binary(out: &mut [u8], scalar: bool, length_preserving: bool) -> usize
    requires { 9 ≤ length out.old }
    ensures { Wrote (front scalar length_preserving) out.old out.new result × (result ≤ 9) }
{
    match (scalar, length_preserving) {
        (false, false) => put_word(out, b"E,5,0,0,0"),
        (false, true) => put_word(out, b"E,5,0,1,0"),
        (true, false) => put_word(out, b"E,5,1,0,0"),
        (true, true) => put_word(out, b"E,5,1,1,0"),
    }
}

// An operator's line.
pub fn put_operator(
    out: &mut [u8],
    scalar: bool,
    length_preserving: bool,
    left: u8,
    right: u8,
) -> usize
    requires { 18 ≤ length out.old }
    ensures { Wrote (expr_line (binary scalar length_preserving left right)) out.old out.new result × (result ≤ 18) }
{
    let a = put_binary(out, scalar, length_preserving);
    let b = a + put_field(&mut out[a..], left);
    let c = b + put_field(&mut out[b..], right);
    c + put_byte(&mut out[c..], b'\n')
}

// What is printed for a refusal.
pub fn put_refusal(out: &mut [u8], refusal: Refusal) -> usize
    requires { 6 ≤ length out.old }
    ensures { Wrote (refusal_line (refusal_number refusal)) out.old out.new result × (result ≤ 6) }
{
    put_line(out, b'R', &[u8::from(refusal)])
}
