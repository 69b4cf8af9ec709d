// A case of the looks at a list of expressions: allow_deordering_top and the list are asked; what is told is the looks in two
// bytes, the answer, what was internally observed (1 for COLUMN, 2 for INDEPENDENT), and the records after the list, for each
// its length and K, S, L, a and the children.
ghost use Rattle.std.specs.Prelude.{◌≡◌, ◌<◌, true};
ghost use Rattle.storage.specs.Entries.{Shaped, list_of};
ghost use Rattle.storage.specs.Based.{Falls};
ghost use Rattle.storage.specs.Start.{OwnLines, NoneOff};
ghost use Rattle.expr.specs.Read.{ReadExprs};

use crate::frame::{Case, two};
use engine::read::{new_run, read_run};
use expr::eos::Eos;
use expr::projected::{expr_order_simplifier, simplify_projected_exprs};
use storage::entries::Entries;
use storage::stored::{Arena, Records};

// Is the record that was stored as line l, switched off or not, K, S, L, a and the children of what is told?
fn record_agrees(records: &Records, l: usize, off: bool, told: &[u8]) -> bool
    requires { l < 128 }
{
    let stored = &records.bytes[16 * l..16 * l + 16];
    let mut record = [0; 12];
    record.copy_from_slice(&stored[..12]);
    if off {
        record[3] = 0;
    }
    told.len() == 4 + usize::from(stored[12]) && record.starts_with(told)
}

// Do the records after the looks agree with those told, each after its length?
fn records_agree(arena: &Arena, told: &[u8]) -> bool {
    let records = &arena.records;
    let lines = &arena.lines;
    let mut rest = told;
    for (&l, &off) in lines.holds.iter().zip(&lines.off).take(records.count) {
        let Some((&length, behind)) = rest.split_first() else {
            return false;
        };
        let Some((record, behind)) = behind.split_at_checked(usize::from(length)) else {
            return false;
        };
        if 128 <= l || !record_agrees(records, usize::from(l), off, record) {
            return false;
        }
        rest = behind;
    }
    rest.is_empty()
}

// The list that is looked at, and allow_deordering_top.
#[derive(Clone, Copy)]
struct Asked {
    list: Entries,
    allow: bool,
    ghost shaped: { Shaped list },
}

// What the looks at it come to.
#[derive(Clone, Copy)]
struct Told<'a> {
    looks: usize,
    answer: u8,
    observed: u8,
    records: &'a [u8],
}

// Do the answer, what was observed and the looks agree?
fn answers_agree(s: Eos, told: Told<'_>) -> bool {
    u8::from(s.answer()) == told.answer
        && u8::from(s.observed()) == told.observed
        && s.looks() == told.looks as u64
}

// Do the looks at the list come to what is told, and leave the records told?
fn list_agrees(arena: &mut Arena, asked: Asked, told: Told<'_>) -> bool
    requires read { ReadExprs arena.old.records.bytes arena.old.records.count }
    requires lines { OwnLines arena.old.lines.holds × NoneOff arena.old.lines.off }
    requires below { Falls arena.old.records.count (list_of asked.list) }
{
    let mut cache = [None; 128];
    let s = simplify_projected_exprs(
        arena,
        &mut cache,
        expr_order_simplifier(),
        asked.list,
        asked.allow,
    );
    answers_agree(s, told) && records_agree(arena, told.records)
}

// Is each of the list below n?
fn is_below(asked: Asked, n: usize) -> bool
    ensures { result ≡ true → Falls n (list_of asked.list) }
{
    let nodes = asked.list.as_slice();
    nodes.iter().all(|node| usize::from(*node) < n)
}

// Is the sheet accepted, does the list stand within its records, and does it agree?
fn plan_agrees(sheet: &[u8], asked: Asked, told: Told<'_>) -> bool {
    let mut run = new_run();
    let Ok(()) = read_run(sheet, &mut run) else {
        return false;
    };
    is_below(asked, run.arena.records.count) && list_agrees(&mut run.arena, asked, told)
}

// What is asked, if the list has at most eight nodes.
fn asked_of(allow: u8, list: &[u8]) -> Option<Asked> {
    let mut nodes = [0; 8];
    let front = nodes.get_mut(..list.len())?;
    front.copy_from_slice(list);
    let count = list.len() as u8;
    Some(Asked {
        list: Entries { nodes, count },
        allow: allow == 1,
    })
}

pub(crate) fn agrees(case: Case<'_>) -> bool {
    let ([allow, list @ ..], [high, low, answer, observed, records @ ..]) = (case.asked, case.told)
    else {
        return false;
    };
    let Some(asked) = asked_of(*allow, list) else {
        return false;
    };
    let told = Told {
        looks: two(*high, *low),
        answer: *answer,
        observed: *observed,
        records,
    };
    plan_agrees(case.sheet, asked, told)
}
