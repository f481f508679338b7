// A run of an engine: a table of one line is read and opened, and its task released three times.
ghost use Rattle.std.specs.Prelude.{◌≡◌, Ok};
ghost use Rattle.tasks.specs.Rows.{rows_of};
ghost use Rattle.text.specs.Reading.{reading};
ghost use Rattle.service.specs.Served.{calls};
ghost use Rattle.examples.specs.Runs.{run_text, run_log, TheRun};

use policies::by_line::ByLine;
use service::log::*;
use service::replay::replay;
use tasks::table::Table;
use text::read::read;

fn table() -> Table
    ensures { reading run_text ≡ Ok (rows_of result) }
{
    let mut table = Table::new();
    let _ = read(&mut table, b"A,DRE,1,2,R,1,2,3,5\n");
    table
}

// The calls of the run, without their answers.
fn unanswered(table: Table) -> [Entry; 12]
    ensures { calls result ≡ calls (run_log table) }
{
    let release = Entry::unanswered(Call::Release { task: 1 });
    let on = Entry::unanswered(Call::Tick { word: 0 });
    let end = Entry::unanswered(Call::Tick { word: 1 });
    let fault = Entry::unanswered(Call::Tick { word: 2 });
    [
        Entry::unanswered(Call::Open { table }),
        release,
        on,
        fault,
        on,
        on,
        release,
        on,
        release,
        on,
        on,
        end,
    ]
}

// Reads the table, makes the calls on a new engine under the by-line policy, and gives them with their answers.
pub fn engine_run() -> [Entry; 12]
    ensures { TheRun result }
{
    let mut log = unanswered(table());
    let _ = replay(ByLine {}, &mut log);
    log
}
