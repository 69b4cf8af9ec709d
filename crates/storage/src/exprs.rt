// What is read of a stored expression: the record that a line of the arena holds.
ghost use Rattle.std.specs.Prelude.{◌≡◌, ◌<◌};
ghost use Rattle.plan.specs.Kinds.{same_aexpr};
ghost use Rattle.storage.specs.Stored.{stored_expr};
ghost use Rattle.storage.specs.Exprs.{RecordHeld, IsHeld};

use crate::entries::Entries;
use crate::stored::Records;
use plan::aexpr::AExpr;
use plan::choice::pick;

// Its option is the number of the sheet, as in the definition's Expr: what it means goes by the kind, and FunctionFlags is made of it where a
// Function's is read.
#[derive(Clone, Copy)]
pub struct ExprRecord {
    pub kind: AExpr,
    pub scalar: bool,
    pub length_preserving: bool,
    pub option: u8,
    pub children: Entries,
}

// The record that was stored as line l, its option 0 where it was switched off. Bytes, as it asks of this record alone.
pub fn expr_of(recs: &[u8; 2048], l: u8, off: bool) -> ExprRecord
    requires { RecordHeld recs.now l }
    ensures { IsHeld recs.now l off result }
{
    let b = (l as usize) * 16;
    let option = pick(off, 0, recs[b + 3]);
    ExprRecord {
        kind: AExpr::of_number(recs[b]),
        scalar: recs[b + 1] == 1,
        length_preserving: recs[b + 2] == 1,
        option,
        children: Entries::read(recs, b + 4, recs[b + 12]),
    }
}

impl Records {
    // Inlined, as is what a look calls along children (expr/src/look.rt).
    #[inline(always)]
    pub fn expr(&self, l: u8, off: bool) -> ExprRecord
        requires { l < self.now.count }
        ensures { IsHeld self.now.bytes l off result }
    {
        expr_of(&self.bytes, l, off)
    }
}

// Bytes, as reading asks it of a line that it has still to check.
pub fn is_kind(recs: &[u8; 2048], l: usize, kind: AExpr) -> bool
    requires { l < 128 }
    ensures { result ≡ same_aexpr (stored_expr recs.now l).kind kind }
{
    AExpr::of_number(recs[l * 16]) == kind
}

// These two ask only that the record's bytes are there, which is less than Records does. Two, each of its own byte: one function that
// took the byte's place would be called by a number for S or L.
pub fn is_scalar(recs: &[u8; 2048], l: u8) -> bool
    requires { l < 128 }
    ensures { result ≡ (stored_expr recs.now l).scalar }
{
    let b = (l as usize) * 16;
    recs[b + 1] == 1
}

pub fn is_length_preserving(recs: &[u8; 2048], l: u8) -> bool
    requires { l < 128 }
    ensures { result ≡ (stored_expr recs.now l).length_preserving }
{
    let b = (l as usize) * 16;
    recs[b + 2] == 1
}
