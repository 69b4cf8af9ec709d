// What a byte of a formula is.
ghost use Rattle.std.specs.Prelude.{◌≡◌};
ghost use Rattle.formula.specs.Tokens.{class};

#[derive(Clone, Copy)]
pub enum Class {
    // With its level, from the loosest, 0, to the tightest, 4.
    Sign(u8),
    Space,
    Opens,
    Closes,
    Letter,
    Digit,
    Other,
}

pub fn class_of(b: u8) -> Class
    ensures { result ≡ class b }
{
    if b.is_ascii_lowercase() {
        return Class::Letter;
    }
    if b.is_ascii_digit() {
        return Class::Digit;
    }
    match b {
        b' ' => Class::Space,
        b'(' => Class::Opens,
        b')' => Class::Closes,
        b'|' => Class::Sign(0),
        b'&' => Class::Sign(1),
        b'<' | b'>' | b'=' => Class::Sign(2),
        b'+' | b'-' => Class::Sign(3),
        b'*' | b'/' => Class::Sign(4),
        _ => Class::Other,
    }
}
