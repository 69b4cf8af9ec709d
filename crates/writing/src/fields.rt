// A number behind its comma, written at the front of what is lent. The result is how much was written.
ghost use Rattle.std.specs.Prelude.{[], ◌∷◌, ◌≤◌, length};
ghost use Rattle.plan.specs.Text.{decimal};
ghost use Rattle.writing.specs.Wrote.{Wrote, field};

pub fn put_byte(out: &mut [u8], b: u8) -> usize
    requires { 1 ≤ length out.old }
    ensures { Wrote (b ∷ []) out.old out.new result }
{
    out[0] = b;
    1
}

// A number of the sheet: one digit, two or three.
pub fn put_field(out: &mut [u8], n: u8) -> usize
    requires { 4 ≤ length out.old }
    ensures { Wrote (field n) out.old out.new result × (result ≤ 4) }
{
    out[0] = b',';
    if n < 10 {
        out[1] = b'0' + n;
        return 2;
    }
    if n < 100 {
        out[1] = b'0' + n / 10;
        out[2] = b'0' + n % 10;
        return 3;
    }
    out[1] = b'0' + n / 100;
    out[2] = b'0' + n / 10 % 10;
    out[3] = b'0' + n % 10;
    4
}

// A number in full decimal. Not by the kit's itoa: its digits stand in a buffer of its own, from which they would be copied, and a law would
// have to say that its text is the definition's.
pub fn write_number(out: &mut [u8], n: u64) -> usize
    requires { length (decimal n) ≤ length out.old }
    ensures { Wrote (decimal n) out.old out.new result }
{
    if n < 10 {
        return put_byte(out, b'0' + n as u8);
    }
    let k = write_number(out, n / 10);
    let j = put_byte(&mut out[k..], b'0' + (n % 10) as u8);
    k + j
}

// The numbers of the T line have at most 20 digits. Not one function with put_field: by this a number of the sheet takes 5.6 ns for 2.9.
pub fn put_wide_field(out: &mut [u8], n: u64) -> usize
    requires { 21 ≤ length out.old }
    ensures { Wrote (field n) out.old out.new result × (result ≤ 21) }
{
    let k = put_byte(out, b',');
    let j = write_number(&mut out[k..], n);
    k + j
}
