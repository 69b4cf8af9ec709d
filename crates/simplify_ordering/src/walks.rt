// The downward and the upward walk: simplify_and_fetch_orderings.
ghost use Rattle.std.specs.Prelude.{◌≡◌, ◌+◌, ◌≤◌, ◌<◌, ◌^◌, length};
ghost use Rattle.storage.specs.Edges.{InRows};
ghost use Rattle.simplify_ordering.specs.Held.{run_of};
ghost use Rattle.simplify_ordering.specs.Run.{SameSize};
ghost use Rattle.simplify_ordering.specs.Walks.{Noted, WalkAsks, WalkGives, sheet_of, FetchAsks, DownGives, FetchGives};

use crate::back::Back;
use crate::run::StoredRun;
use crate::visit::simplify_ir_node_orders;
use plan::refusal::Refusal;
use plan::tally::Tally;
use storage::removed::Removed;

// Along the places of `list`, until one is refused. `removed` are the sorts that went before.
fn walk(
    run: &mut StoredRun,
    ends: &[u8; 544],
    list: &[u8],
    removed: Removed,
) -> Result<Back, Refusal>
    requires few { length list.now ≤ 288 }
    requires few_removed { removed.count ≤ 288 }
    requires rows { InRows ends.now run.old.edges.count run.old.steps.count }
    requires asks { WalkAsks list.now (run_of run.old ends.now) }
    ensures gives { WalkGives list.now removed (run_of run.old ends.now) (run_of run.new ends.now) result }
    ensures same_size { SameSize run.old run.new }
{
    let mut back = Back::new(removed);
    for n in list {
        let visited = simplify_ir_node_orders(run, ends, *n)?;
        back.note(*n, visited);
    }
    Ok(back)
}

// The downward walk: along the visiting list, with nothing counted yet.
fn walk_down(run: &mut StoredRun, ends: &[u8; 544], list: &[u8]) -> Result<Back, Refusal>
    requires { FetchAsks run.old ends.now list.now }
    ensures down_gives { DownGives (sheet_of run.old) (run_of run.new ends.now) result }
    ensures same_size { SameSize run.old run.new }
{
    run.tally = Tally {
        visits: 0,
        looks: 0,
    };
    walk(run, ends, list, Removed::new())
}

// Along the visiting list, then back over it, but for the sorts removed on the way down. Answers which sorts were removed.
pub fn simplify_and_fetch_orderings(
    run: &mut StoredRun,
    ends: &[u8; 544],
    list: &[u8],
) -> Result<Removed, Refusal>
    requires { FetchAsks run.old ends.now list.now }
    ensures fetched { FetchGives (sheet_of run.old) (run_of run.new ends.now) result }
    ensures same_size { SameSize run.old run.new }
{
    let down = walk_down(run, ends, list)?;
    let at = down.at;
    let up = walk(run, ends, &down.places[at..], down.removed)?;
    Ok(up.removed)
}
