// The finished sheet block by block: E lines, P lines, G lines, T line.
ghost use Rattle.std.specs.Prelude.{ℕ, ◌+◌, ◌≤◌, ◌<◌, length};
ghost use Rattle.plan.specs.Lists.{concat_map};
ghost use Rattle.plan.specs.Text.{expr_line, step_line, edge_line};
ghost use Rattle.storage.specs.Edges.{stored_edge};
ghost use Rattle.storage.specs.Held.{steps_in, edges_in};
ghost use Rattle.storage.specs.Stored.{stored_expr, stored_step, stored_exprs, ExprFormed, StepFormed};
ghost use Rattle.writing.specs.Wrote.{Wrote};

use crate::each::put_each;
use crate::lines::{put_edge, put_line};
use storage::edges::{consumer_of, is_unordered, slot_of};
use storage::lines::{expr_numbers, step_numbers};
use storage::stored::{Edges, Steps};

// The E line that is stored as number i.
pub fn put_expr(out: &mut [u8], exprs: &[u8; 2048], i: usize) -> usize
    requires i_bound { i < 128 }
    requires expr_formed { ExprFormed exprs.now i }
    requires in_bounds { 50 ≤ length out.old }
    ensures { Wrote (expr_line (stored_expr exprs.now i)) out.old out.new result × (result ≤ 50) }
{
    put_line(out, b'E', expr_numbers(exprs, i))
}

// Bytes and a count, as it asks less of them than Records does: that each expression is formed.
pub fn put_exprs(out: &mut [u8], exprs: &[u8; 2048], n: usize) -> usize
    requires n_bound { n ≤ 128 }
    requires exprs_formed { (i : ℕ) → i < n → ExprFormed exprs.now i }
    requires in_bounds { 6400 ≤ length out.old }
    ensures { Wrote (concat_map expr_line (stored_exprs exprs.now n)) out.old out.new result × (result ≤ 6400) }
{
    put_each::<50, _>(out, n, |rest, i| put_expr(rest, exprs, i))
}

// The P line that is stored as number i. Bytes, as it asks of that step alone.
pub fn put_step(out: &mut [u8], steps: &[u8; 1024], i: usize) -> usize
    requires i_bound { i < 32 }
    requires step_formed { StepFormed steps.now i }
    requires in_bounds { 126 ≤ length out.old }
    ensures { Wrote (step_line (stored_step steps.now i)) out.old out.new result × (result ≤ 126) }
{
    put_line(out, b'P', step_numbers(steps, i))
}

pub fn put_steps(out: &mut [u8], steps: &Steps) -> usize
    requires { 4032 ≤ length out.old }
    ensures { Wrote (concat_map step_line (steps_in steps.now)) out.old out.new result × (result ≤ 4032) }
{
    put_each::<126, _>(out, steps.count, |rest, i| put_step(rest, &steps.bytes, i))
}

// The G line of the edge that is stored as number i. Bytes: it asks only that the edge's place is there.
pub fn put_stored_edge(out: &mut [u8], ends: &[u8; 544], edges: &[u8; 512], i: usize) -> usize
    requires i_bound { i < 256 }
    requires in_bounds { 14 ≤ length out.old }
    ensures { Wrote (edge_line (stored_edge ends.now edges.now i)) out.old out.new result × (result ≤ 14) }
{
    put_edge(
        out,
        consumer_of(ends, i),
        slot_of(ends, i),
        is_unordered(edges, i),
    )
}

pub fn put_edges(out: &mut [u8], ends: &[u8; 544], edges: &Edges) -> usize
    requires { 3584 ≤ length out.old }
    ensures { Wrote (concat_map edge_line (edges_in ends.now edges.now)) out.old out.new result × (result ≤ 3584) }
{
    put_each::<14, _>(
        out,
        edges.count,
        |rest, i| put_stored_edge(rest, ends, &edges.bytes, i),
    )
}
