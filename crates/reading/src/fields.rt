// Struct fields that are or lie under an evaluation child of a StructEval (refusal 9). Lines are gone through from the last to the
// first: a child of a marked line is marked, and so are the evaluation children of a StructEval, all but its first child. What is asked of one
// line goes by bytes and its place, as what is lent out of it does (storage/src/lines.rt).
ghost use Rattle.std.specs.Prelude.{◌≡◌, true, ◌≤◌, ◌<◌};
ghost use Rattle.plan.specs.Lists.{all?, numbered};
ghost use Rattle.plan.specs.Faults.{children_earlier, field_right};
ghost use Rattle.storage.specs.Stored.{stored_expr};
ghost use Rattle.storage.specs.Lines.{children_count};
ghost use Rattle.reading.specs.Lent.{exprs_in};
ghost use Rattle.reading.specs.Marks.{marked, marks_after, field_marked};

use crate::held::ExprLines;
use crate::namings::Namings;
use plan::aexpr::AExpr;
use storage::exprs::is_kind;
use storage::lines::children_of;

// What the i-th line marks. A mark is a count above 0.
fn mark_line(marks: &mut Namings, exprs: &[u8; 2048], i: usize)
    requires { (i < 128) × (children_count exprs.now i ≤ 8) }
    ensures { marks.new ≡ marked exprs.now marks.old i }
{
    let children = children_of(exprs, i);
    if 1 <= marks.times(i) {
        marks.count_all(children);
    } else if is_kind(exprs, i, AExpr::StructEval) {
        if let [_, evaluated @ ..] = children {
            marks.count_all(evaluated);
        }
    }
}

fn mark_lines(marks: &mut Namings, exprs: ExprLines<'_>)
    ensures { marks.new ≡ marks_after marks.old exprs.entry.bytes.now exprs.entry.count exprs.entry.count }
{
    for i in (0..exprs.count).rev() {
        mark_line(marks, exprs.bytes, i);
    }
}

// A StructField is marked.
fn field_right(marks: &Namings, exprs: &[u8; 2048], i: usize) -> bool
    requires { i < 128 }
    ensures { result ≡ field_marked marks.now (i, stored_expr exprs.now i) }
{
    !is_kind(exprs, i, AExpr::StructField) || 1 <= marks.times(i)
}

fn fields_marked(marks: &Namings, exprs: ExprLines<'_>) -> bool
    ensures { result ≡ all? (field_marked marks.now) (numbered 0 (exprs_in exprs.entry)) }
{
    (0..exprs.count).all(|i| field_right(marks, exprs.bytes, i))
}

pub fn fields_right(exprs: ExprLines<'_>) -> bool
    requires { all? children_earlier (numbered 0 (exprs_in exprs)) ≡ true }
    ensures { let es = exprs_in exprs.entry in result ≡ all? (field_right es) (numbered 0 es) }
{
    let mut marks = Namings::new();
    mark_lines(&mut marks, exprs);
    fields_marked(&marks, exprs)
}
