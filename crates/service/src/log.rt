// Calls of an engine, and their answers.
ghost use Rattle.std.specs.Prelude.{◌≡◌, Err};
ghost use Rattle.tasks.specs.declared.refusal.Refusal.{Refusal};

use tasks::job::{Outcome, Plan};
use tasks::refusal::Refusal;
use tasks::table::Table;

#[derive(Clone, Copy)]
pub enum Call {
    // the table itself, so that a log may outlive the tables that it was made with
    Open { table: Table },
    Release { task: u32 },
    // any number, since what is no word is refused
    Tick { word: u32 },
    Counts { task: u32 },
    Figure { task: u32 },
}

// What a call is told that is not refused.
#[derive(Clone, Copy)]
pub enum Reply {
    // an opening: whether the table is admitted
    Opened { admitted: bool },
    // a release: the plan of the job
    Planned { plan: Plan },
    // a tick: the task that got it, and how it came out; the task is 0 where none did, as the answer is printed, and an
    // Option would be taken apart for that alone
    Ticked { task: u32, outcome: Outcome },
    // how often the task was released, and how many of its jobs ended
    Counted { releases: u64, ends: u64 },
    // its response figure
    Figured { figure: u32 },
}

pub type Answer = Result<Reply, Refusal>;

// A call with its answer.
#[derive(Clone, Copy)]
pub struct Entry {
    pub call: Call,
    pub answer: Answer,
}

impl Entry {
    // A call that has no answer yet: what a shut engine refuses stands in its place.
    pub fn unanswered(call: Call) -> Self
        ensures { result ≡ record { call = call; answer = Err Refusal.Shut } }
    {
        Entry {
            call,
            answer: Err(Refusal::Shut),
        }
    }
}
