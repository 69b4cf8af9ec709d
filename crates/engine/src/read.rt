// From the bytes of a sheet to a run that is to be made.
ghost use Rattle.std.specs.Prelude.{◌≡◌};
ghost use Rattle.reading.specs.Plan.{plan_of};
ghost use Rattle.storage.specs.Start.{OwnLines, NoneOff};
ghost use Rattle.simplify_ordering.specs.Walks.{sheet_of};
ghost use Rattle.engine.specs.Call.{Fresh, read_as};

use plan::refusal::Refusal;
use plan::sizes::size;
use plan::tally::Tally;
use reading::read_plan;
use simplify_ordering::run::StoredRun;
use storage::stored::{Arena, Edges, Lines, Records, Steps};

// A run of no lines.
pub fn new_run() -> StoredRun
    ensures { Fresh result }
{
    StoredRun {
        arena: Arena {
            records: Records {
                bytes: [0; 2048],
                count: 0,
            },
            lines: Lines::new(),
        },
        steps: Steps {
            bytes: [0; 1024],
            count: 0,
        },
        edges: Edges {
            bytes: [0; 512],
            count: 0,
        },
        tally: Tally {
            visits: 0,
            looks: 0,
        },
    }
}

// The plan of a sheet takes its place in a run of no lines.
pub fn read_run(sheet: &[u8], run: &mut StoredRun) -> Result<(), Refusal>
    requires { Fresh run.old }
    ensures read { plan_of sheet.now ≡ read_as result (sheet_of run.new) }
    ensures lines { OwnLines run.new.arena.lines.holds × NoneOff run.new.arena.lines.off }
{
    let records = &mut run.arena.records;
    let steps = &mut run.steps;
    let read = read_plan(sheet, &mut records.bytes, &mut steps.bytes);
    size(&records.bytes);
    size(&steps.bytes);
    let counts = read?;
    records.count = counts.exprs;
    steps.count = counts.steps;
    Ok(())
}
