// What the first pass keeps of the bytes that it has read, and what each of them lets it note.
ghost use Rattle.std.specs.Prelude.{◌≡◌, ℕ, [], ◌+◌, ◌^◌, ◌<◌, ◌≤◌, IfOk, List, Some, length};
ghost use Rattle.formula.specs.declared.seen.Next.{Next};
ghost use Rattle.formula.specs.declared.token.Class.{Class};
ghost use Rattle.formula.specs.declared.items.Item.{Item};
ghost use Rattle.formula.specs.Converted.{answer_number, judged, outcome_of};
ghost use Rattle.formula.specs.Items.{Noted, item, items_read, notes, with_item};
ghost use Rattle.formula.specs.Parse.{reading};
ghost use Rattle.formula.specs.Seen.{After, may_end, seen_as, seen_of, wants, with_begun};
ghost use Rattle.formula.specs.Tokens.{class};

use crate::items::{Item, Kind, note};
use crate::refusal::Refusal;
use crate::token::{Class, class_of};

// What may stand next. Wherever a sign may, a closing bracket may.
#[derive(Clone, Copy)]
pub enum Next {
    Operand,
    OperandOrSpace,
    Sign,
    SignOrSpace,
    // Of a number that may go on: its value so far.
    SignSpaceOrDigit(u8),
}

#[derive(Clone, Copy)]
pub struct Seen {
    pub next: Next,
    // Brackets that are open.
    pub depth: u16,
}

impl Seen {
    pub fn new() -> Seen
        ensures { seen_of (reading []) ≡ Some result }
    {
        Seen {
            next: Next::Operand,
            depth: 0,
        }
    }

    // Is an operand wanted?
    fn wants(self) -> bool
        ensures { result ≡ wants self.next }
    {
        matches!(self.next, Next::Operand | Next::OperandOrSpace)
    }

    // Was an operand read last, and no space behind it?
    fn may_end(self) -> bool
        ensures { result ≡ may_end self.next }
    {
        matches!(self.next, Next::SignOrSpace | Next::SignSpaceOrDigit(_))
    }

    // As it is, but for what may stand next.
    fn then(self, next: Next) -> Seen
        ensures { result ≡ seen_as next self.depth }
    {
        Seen {
            next,
            depth: self.depth,
        }
    }

    // What begins here is noted.
    fn note(self, kind: Kind, places: &mut [Item], count: &mut usize)
        ensures { notes places.new count.new ≡ with_item (item self.depth kind) (notes places.old count.old) }
    {
        let item = Item {
            depth: self.depth,
            kind,
        };
        note(places, count, item);
    }

    // A letter.
    fn letter(self, places: &mut [Item], count: &mut usize) -> Option<Seen>
        ensures seen { (b : ℕ) → After Class.Letter b self result }
        ensures noted { notes places.new count.new ≡ with_begun Class.Letter self (notes places.old count.old) }
    {
        if !self.wants() {
            return None;
        }
        self.note(Kind::Letter, places, count);
        Some(self.then(Next::SignOrSpace))
    }

    // One more digit d of a number v: none behind a 0, and none that takes it above 255.
    fn longer(self, v: u8, b: u8) -> Option<Seen>
        requires number { self.next ≡ Next.SignSpaceOrDigit v }
        requires digit { (48 ≤ b) × (b < 58) }
        ensures { After Class.Digit b self result }
    {
        let n = u32::from(v) * 10 + u32::from(b - b'0');
        match u8::try_from(n) {
            Ok(value) if v != 0 => Some(self.then(Next::SignSpaceOrDigit(value))),
            _ => None,
        }
    }

    // A digit, of a new number or of one that goes on.
    fn digit(self, b: u8, places: &mut [Item], count: &mut usize) -> Option<Seen>
        requires { (48 ≤ b) × (b < 58) }
        ensures seen { After Class.Digit b self result }
        ensures noted { notes places.new count.new ≡ with_begun Class.Digit self (notes places.old count.old) }
    {
        match self.next {
            Next::Operand | Next::OperandOrSpace => {
                self.note(Kind::Number, places, count);
                Some(self.then(Next::SignSpaceOrDigit(b - b'0')))
            }
            Next::SignSpaceOrDigit(v) => self.longer(v, b),
            Next::Sign | Next::SignOrSpace => None,
        }
    }

    fn opens(self) -> Option<Seen>
        requires { self.depth + 1 < 2 ^ 16 }
        ensures { (b : ℕ) → After Class.Opens b self result }
    {
        if !self.wants() {
            return None;
        }
        Some(Seen {
            next: Next::OperandOrSpace,
            depth: self.depth + 1,
        })
    }

    fn closes(self) -> Option<Seen>
        ensures { (b : ℕ) → After Class.Closes b self result }
    {
        if self.wants() || self.depth == 0 {
            return None;
        }
        Some(Seen {
            next: Next::SignOrSpace,
            depth: self.depth - 1,
        })
    }

    fn sign(self, level: u8, places: &mut [Item], count: &mut usize) -> Option<Seen>
        ensures seen { (b : ℕ) → After (Class.Sign level) b self result }
        ensures noted { notes places.new count.new ≡ with_begun (Class.Sign level) self (notes places.old count.old) }
    {
        if self.wants() {
            return None;
        }
        self.note(Kind::Operator(level), places, count);
        Some(self.then(Next::OperandOrSpace))
    }

    fn space(self) -> Option<Seen>
        ensures { (b : ℕ) → After Class.Space b self result }
    {
        match self.next {
            Next::OperandOrSpace => Some(self.then(Next::Operand)),
            Next::SignOrSpace | Next::SignSpaceOrDigit(_) => Some(self.then(Next::Sign)),
            Next::Operand | Next::Sign => None,
        }
    }

    // One byte more; none if no formula begins with what was read.
    pub fn after(self, b: u8, places: &mut [Item], count: &mut usize) -> Option<Seen>
        requires { self.depth + 1 < 2 ^ 16 }
        ensures seen { After (class b) b self result }
        ensures noted { notes places.new count.new ≡ with_begun (class b) self (notes places.old count.old) }
    {
        match class_of(b) {
            Class::Sign(level) => self.sign(level, places, count),
            Class::Space => self.space(),
            Class::Opens => self.opens(),
            Class::Closes => self.closes(),
            Class::Letter => self.letter(places, count),
            Class::Digit => self.digit(b, places, count),
            Class::Other => None,
        }
    }

    // What the formula that ends here comes to, if so many items of it were noted in 129 places.
    pub fn end(self, count: usize) -> Result<usize, Refusal>
        ensures number { (w : List ℕ) (places : List Item) → length places ≡ 129 → Noted (notes places count) (items_read (reading w)) → seen_of (reading w) ≡ Some self
            → answer_number (outcome_of result) ≡ answer_number (judged w) }
        ensures count { IfOk result (λ n. (n ≡ count) × (n ≤ 128)) }
    {
        if self.depth > 0 || !self.may_end() {
            return Err(Refusal::NoFormula);
        }
        if count > 128 {
            return Err(Refusal::ManyLines);
        }
        Ok(count)
    }
}
