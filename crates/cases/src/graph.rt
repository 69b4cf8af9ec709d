// A case of the traversal graph: nothing else is asked; what is told is the number of places in two bytes, the visiting list,
// and a consumer and a slot for each edge.
ghost use Rattle.claims.specs.Plan.{Plan};
ghost use Rattle.storage.specs.Held.{steps_in};

use crate::frame::{Case, two};
use engine::read::{new_run, read_run};
use ir_graph::ir_graph::build_ir_traversal_graph;
use ir_graph::places::Places;
use storage::edges::{consumer_of, slot_of};
use storage::stored::{Edges, Steps};

// Are the edges told, a consumer and a slot for each, and no others?
fn edges_agree(ends: &[u8; 544], edges: &Edges, told: &[u8]) -> bool {
    let (pairs, rest) = told.as_chunks::<2>();
    pairs.len() == edges.count
        && rest.is_empty()
        && pairs.iter().enumerate().all(|(k, pair)| {
            *pair == [consumer_of(ends, k), slot_of(ends, k)]
        })
}

// Does the graph of a plan have these places and these edges?
fn graph_agrees(steps: &Steps, made: &mut Edges, places: &[u8], edges: &[u8]) -> bool
    requires { Plan (steps_in steps.now) }
{
    let mut list = Places::new();
    let mut ends = [0; 544];
    build_ir_traversal_graph(steps, &mut list, &mut ends, made);
    list.as_slice() == places && edges_agree(&ends, made, edges)
}

// Is the sheet accepted, and does its graph have these places and these edges?
fn plan_agrees(sheet: &[u8], places: &[u8], edges: &[u8]) -> bool {
    let mut run = new_run();
    let Ok(()) = read_run(sheet, &mut run) else {
        return false;
    };
    graph_agrees(&run.steps, &mut run.edges, places, edges)
}

pub(crate) fn agrees(case: Case<'_>) -> bool {
    let ([], [high, low, told @ ..]) = (case.asked, case.told) else {
        return false;
    };
    let Some((places, edges)) = told.split_at_checked(two(*high, *low)) else {
        return false;
    };
    plan_agrees(case.sheet, places, edges)
}
