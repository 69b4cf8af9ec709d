// A number of a line: base ten, 0 to 255, without leading zeros. It is read by hand: `parse` wants a `str` whose end is known, and takes
// a sign and leading zeros; a sheet is bytes, its numbers end at a comma or byte 10, and no second pass looks for these.
ghost use Rattle.std.specs.Prelude.{◌≡◌, ◌≤◌};
ghost use Rattle.reading.specs.Number.{digit_of, digit_at, number_at, Small, TwoDigits};

use plan::refusal::Refusal;

// A number's value, and how many bytes it is written with.
#[derive(Clone, Copy)]
pub struct Number {
    pub value: u8,
    pub width: usize,
}

// What a byte is to a number.
#[derive(Clone, Copy)]
pub enum Byte {
    Digit(u8),
    // A comma or byte 10, which end a number.
    End,
    Other,
}

// Digits are told first: one match would ask for the comma and byte 10 before them, and by it a call took 674 ns for 630 on sheets of
// `gen noise`, and 7.63 µs for 7.34 on those of `gen valid`.
pub fn digit_of(b: u8) -> Byte
    ensures value { result ≡ digit_of b }
    ensures small { Small result }
{
    if b.is_ascii_digit() {
        return Byte::Digit(b - b'0');
    }
    match b {
        b',' | b'\n' => Byte::End,
        _ => Byte::Other,
    }
}

// The end of the bytes ends a number too.
pub fn digit_at(s: &[u8], i: usize) -> Byte
    ensures value { result ≡ digit_at s.now i }
    ensures small { Small result }
{
    match s.get(i) {
        Some(b) => digit_of(*b),
        None => Byte::End,
    }
}

// A number of two digits or three, whose first two are a and b.
fn read_long(s: &[u8], a: u8, b: u8) -> Result<Number, Refusal>
    requires { TwoDigits s.now a b }
    ensures { result ≡ number_at s.now }
{
    match digit_at(s, 2) {
        Byte::End => Ok(Number {
            value: a * 10 + b,
            width: 2,
        }),
        Byte::Digit(c) => {
            let n = (u32::from(a) * 10 + u32::from(b)) * 10 + u32::from(c);
            match (digit_at(s, 3), u8::try_from(n)) {
                (Byte::End, Ok(value)) => Ok(Number { value, width: 3 }),
                _ => Err(Refusal::Form),
            }
        }
        Byte::Other => Err(Refusal::Form),
    }
}

// The number at the front of the bytes that follow a comma. Most have one digit, so no byte is looked at before it is needed.
pub fn read_number(s: &[u8]) -> Result<Number, Refusal>
    ensures { result ≡ number_at s.now }
{
    let Byte::Digit(a) = digit_at(s, 0) else {
        return Err(Refusal::Form);
    };
    match digit_at(s, 1) {
        Byte::End => Ok(Number { value: a, width: 1 }),
        Byte::Digit(b) if a != 0 => read_long(s, a, b),
        Byte::Digit(_) | Byte::Other => Err(Refusal::Form),
    }
}
