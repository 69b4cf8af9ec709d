// Runs the frozen cases of each folder of data/, and prints for each how many agree.
// The scripts oracle/freeze_*.py make the data. Each folder has a module with its comparison, of the same name but for `read`:
// `reading` is a crate.
#![tactic(auto)]

use crate::frame::{Case, NoCase, read_case};
use crate::score::Score;
use std::fs::Files;
use std::io::Read;
use std::{fs, io};
use streams::ok_or_tell;

mod formulas;
mod frame;
mod graph;
mod lists;
mod papers;
mod read;
mod score;
mod sheets;

// A proved loop has to end, and nothing says that a file does: it stops at 100,000 cases.
fn run_all<R: Read, F: FnMut(Case<'_>) -> bool>(file: &mut R, mut agrees: F) -> Score
    requires { F.IsAlwaysCallable agrees }
{
    let mut score = Score::NONE;
    // a buffer of its own: nothing here allocates
    let mut buf = [0; 65536];
    for _ in 0..100_000 {
        match read_case(file, &mut buf) {
            Ok(case) => score.count(agrees(case)),
            Err(NoCase::NotWhole) => score.count(false),
            Err(NoCase::Ended) => break,
        }
    }
    score
}

fn run_folder<R: Files + Print + Eprint, F: FnMut(Case<'_>) -> bool>(
    rt: &R,
    name: &str,
    path: &str,
    agrees: F,
) -> io::Result<()>
    requires { F.IsAlwaysCallable agrees }
{
    let Some(mut file) = ok_or_tell(rt, path, fs::open(rt, path)) else {
        return Ok(());
    };
    let score = run_all(&mut file, agrees);
    println!(rt; "{name}: {score}")
}

fn main(rt: HostRuntime) -> io::Result<()> {
    let mut answers = [0; 256];
    run_folder(&rt, "reading", "reading/cases", read::agrees)?;
    run_folder(&rt, "graph", "graph/cases", graph::agrees)?;
    run_folder(&rt, "lists", "lists/cases", lists::agrees)?;
    run_folder(&rt, "sheets", "sheets/cases", |case| {
        sheets::agrees(case, &mut answers)
    })?;
    sheets::report_answers(&rt, &answers)?;
    run_folder(&rt, "papers", "papers/cases", papers::agrees)?;
    run_folder(&rt, "formulas", "formulas/cases", formulas::agrees)
}
