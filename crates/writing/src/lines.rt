// One line: its letter, its numbers behind commas, byte 10.
ghost use Rattle.std.specs.Prelude.{◌≡◌, [], ◌∷◌, ◌+◌, ◌*◌, ◌≤◌, length, not};
ghost use Rattle.plan.specs.Lists.{concat_map, digit};
ghost use Rattle.plan.specs.Text.{line};
ghost use Rattle.writing.specs.Refusal.{refusal_line};
ghost use Rattle.writing.specs.Wrote.{Wrote, field};

use crate::fields::{put_byte, put_field, put_wide_field};

pub fn put_fields(out: &mut [u8], ns: &[u8]) -> usize
    requires { 4 * length ns.now ≤ length out.old }
    ensures { Wrote (concat_map field ns.now) out.old out.new result × (result ≤ 4 * length ns.now) }
{
    let mut len: usize = 0;
    for n in ns {
        len += put_field(&mut out[len..], *n);
    }
    len
}

// An E or a P line, of the numbers as they are stored.
pub fn put_line(out: &mut [u8], letter: u8, ns: &[u8]) -> usize
    requires { 4 * length ns.now + 2 ≤ length out.old }
    ensures { Wrote (line letter ns.now) out.old out.new result × (result ≤ 4 * length ns.now + 2) }
{
    let a = put_byte(out, letter);
    let b = a + put_fields(&mut out[a..], ns);
    b + put_byte(&mut out[b..], b'\n')
}

// 1 for an ordered edge.
pub fn order_digit(unordered: bool) -> u8
    ensures { result ≡ digit (not unordered) }
{
    u8::from(!unordered)
}

// A G line: consumer, slot, order.
pub fn put_edge(out: &mut [u8], consumer: u8, slot: u8, unordered: bool) -> usize
    requires { 14 ≤ length out.old }
    ensures { Wrote (line 71 (consumer ∷ slot ∷ digit (not unordered) ∷ [])) out.old out.new result × (result ≤ 14) }
{
    let ns = [consumer, slot, order_digit(unordered)];
    put_line(out, b'G', &ns)
}

// The T line, of three numbers as the text `line 84` has them: with Tallies the contract would name the same three.
pub fn put_tally(out: &mut [u8], removed: u64, visits: u64, looks: u64) -> usize
    requires { 65 ≤ length out.old }
    ensures { Wrote (line 84 (removed ∷ visits ∷ looks ∷ [])) out.old out.new result × (result ≤ 65) }
{
    let a = put_byte(out, b'T');
    let b = a + put_wide_field(&mut out[a..], removed);
    let c = b + put_wide_field(&mut out[b..], visits);
    let d = c + put_wide_field(&mut out[c..], looks);
    d + put_byte(&mut out[d..], b'\n')
}

// What is printed for a refusal. It takes any number, so no `Refusal`: a caller that has one passes `u8::from` of it.
pub fn put_refusal(out: &mut [u8], number: u8) -> usize
    requires { 6 ≤ length out.old }
    ensures { Wrote (refusal_line number) out.old out.new result × (result ≤ 6) }
{
    put_line(out, b'R', &[number])
}
