// The numbers of a line: each behind a comma, up to byte 10.
ghost use Rattle.std.specs.Prelude.{◌≡◌, ◌+◌, ◌<◌, ◌^◌, length, replicate};
ghost use Rattle.reading.specs.Field.{field_at};

use crate::number::{Number, read_number};
use plan::refusal::Refusal;

// All are counted, the first 31 kept. No line within the tables has more. No ArrayVec: its length would be no more than what it keeps, and a
// line is stored with all 32 bytes.
#[derive(Clone, Copy)]
pub struct Numbers {
    pub kept: [u8; 32],
    pub count: usize,
    pub ghost sized: { length kept ≡ 32 },
}

// What stands at the front of the bytes: a comma and a number, whose width is that of both, or byte 10, which is none.
pub fn read_field(s: &[u8]) -> Result<Option<Number>, Refusal>
    ensures { result ≡ field_at s.now }
{
    match s {
        [b'\n', ..] => Ok(None),
        [b',', rest @ ..] => {
            let Number { value, width } = read_number(rest)?;
            let width = width + 1;
            Ok(Some(Number { value, width }))
        }
        _ => Err(Refusal::Form),
    }
}

impl Numbers {
    ghost use Rattle.reading.specs.Line.{placed, NumbersRead};

    pub fn new() -> Numbers
        ensures { (result.kept ≡ replicate 32 0) × (result.count ≡ 0) }
    {
        Numbers {
            kept: [0; 32],
            count: 0,
        }
    }

    fn push(&mut self, x: u8)
        requires { self.old.count + 1 < 2 ^ 64 }
        ensures { (self.new.kept ≡ placed self.old.kept self.old.count x) × (self.new.count ≡ self.old.count + 1) }
    {
        if self.count < 31 {
            self.kept[self.count] = x;
        }
        self.count += 1;
    }

    // The numbers that follow a line's letter, and the length of all of them with byte 10. No iterator: it would have to be a type of this
    // crate's own, which ends by byte 10 or a refusal, and its `enumerate` would give the place of each number but not how many there were.
    // The count begins anew; older bytes behind it may stay.
    pub fn read(&mut self, s: &[u8]) -> Result<usize, Refusal>
        ensures { NumbersRead s.now result self.new }
    {
        self.count = 0;
        let mut len: usize = 1;
        let mut rest = s;
        while let Some(number) = read_field(rest)? {
            self.push(number.value);
            len += number.width;
            rest = &rest[number.width..];
        }
        Ok(len)
    }
}
