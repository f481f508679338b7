// The engine runs a small table through a burst of faults; prints each call beside its answer.
#![tactic(auto)]

use engine::engine::Engine;
use policies::by_line::ByLine;
use service::apply::{apply, start};
use service::log::Call;
use tasks::table::Table;
use text::read::read;
use transcript::answer::AnswerLine;
use transcript::call::call_on;

// One right job of any two for both; the camera's jobs recover from a fault.
const TABLE: &str = "STEER,DRE,1,2,R,1,2,3,6\nCAM,DDR,1,2,R,1,2,3,12\n";

// A call a line, and remarks behind a #.
const SCRIPT: &str = "\
# Both tasks are due. While no fault was found, a job detects (D).
release 1
release 2
tick 0
# A burst of faults: each of the two jobs detects one, and ends bad.
tick 2
tick 0
tick 2
tick 0
# Too early: a period of 6 ticks has not passed since the last release.
release 1
tick 0
# STEER's next job corrects (R); while it runs, a detected fault does not fit.
release 1
tick 0
tick 2
tick 0
tick 1
tick 0
tick 0
tick 0
# Both are due again: STEER detects, CAM detects and recovers (DR).
release 1
release 2
tick 0
tick 1
tick 0
# A last fault: CAM's correcting version starts, and STEER's next job comes before it.
tick 2
tick 0
tick 0
release 1
tick 0
tick 1
tick 1
# How often each was released, how many jobs ended, and their figures.
counts 1
counts 2
figure 1
figure 2
";

// Makes a call, and prints its answer.
fn make(rt: &HostRuntime, engine: &mut Engine<ByLine>, call: &Call) -> anyhow::Result<()> {
    let answer = apply(engine, call);
    rt.print(AnswerLine(&answer))?;
    Ok(())
}

// Prints a line of the script, and the answer if it is a call.
fn follow(
    rt: &HostRuntime,
    engine: &mut Engine<ByLine>,
    table: &Table,
    line: &str,
) -> anyhow::Result<()> {
    match call_on(line.as_bytes(), table) {
        Some(call) => {
            print!(rt; "  {line:<10}  ")?;
            make(rt, engine, &call)
        }
        None => {
            println!(rt; "{line}")?;
            Ok(())
        }
    }
}

fn main(rt: HostRuntime) -> anyhow::Result<()> {
    println!(rt;
        "A run of the engine with a table small enough to show every tick. Each call has its answer"
    )?;
    println!(rt; "beside it. The table:")?;
    print!(rt; "{TABLE}")?;
    let mut table = Table::new();
    let _ = read(&mut table, TABLE.as_bytes());
    let mut engine = start(ByLine {});
    print!(rt; "  open        ")?;
    make(&rt, &mut engine, &Call::Open { table })?;
    for line in SCRIPT.lines() {
        follow(&rt, &mut engine, &table, line)?;
    }
    Ok(())
}
