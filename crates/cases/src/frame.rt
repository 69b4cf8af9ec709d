// The form of a case: the lengths of three parts in two bytes each, the high one first, and then the parts.
ghost use Rattle.std.specs.Prelude.{◌+◌, ◌<◌, ◌≤◌, length, IfOk};

use std::io::Read;
use streams::fill;

// The sheet, or the formula; what else is asked, and what is told.
#[derive(Clone, Copy)]
pub struct Case<'a> {
    pub sheet: &'a [u8],
    pub asked: &'a [u8],
    pub told: &'a [u8],
}

// Why a file gives no case: it has no more of them; it ends within one, or the buffer can't hold it.
#[derive(Clone, Copy)]
pub enum NoCase {
    Ended,
    NotWhole,
}

// The number of two bytes, the high one first.
pub(crate) fn two(high: u8, low: u8) -> usize
    ensures { result < 65536 }
{
    usize::from(u16::from_be_bytes([high, low]))
}

// Reads the next case to the front of the buffer. Where a read fails, the file ends.
pub(crate) fn read_case<'a, R: Read>(file: &mut R, buf: &'a mut [u8]) -> Result<Case<'a>, NoCase>
    ensures { IfOk result (λ c. length c.sheet.now + length c.asked.now + length c.told.now ≤ length buf.old) }
{
    let mut head = [0; 6];
    let (came, _) = fill(file, &mut head);
    if came == 0 {
        return Err(NoCase::Ended);
    }
    let sheet_end = two(head[0], head[1]);
    let asked_end = sheet_end + two(head[2], head[3]);
    let told_end = asked_end + two(head[4], head[5]);
    if buf.len() < told_end {
        return Err(NoCase::NotWhole);
    }
    let (came_behind, _) = fill(file, &mut buf[..told_end]);
    if came < 6 || came_behind < told_end {
        return Err(NoCase::NotWhole);
    }
    Ok(Case {
        sheet: &buf[..sheet_end],
        asked: &buf[sheet_end..asked_end],
        told: &buf[asked_end..told_end],
    })
}
