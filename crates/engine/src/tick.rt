// Ticks.
ghost use Rattle.std.specs.Prelude.{◌≡◌, ℕ, ◌+◌, ◌-◌, ◌^◌, ◌<◌, ◌≤◌, length, None, Some, MatchOption, slice_index_or};
ghost use Rattle.tasks.specs.Tables.{lines_of};
ghost use Rattle.policies.specs.Means.{meaning};
ghost use Rattle.engine.specs.declared.state.OpenJob.{OpenJob};
ghost use Rattle.engine.specs.Jobs.{unused, running_after, task_after};
ghost use Rattle.engine.specs.Status.{status_of};
ghost use Rattle.engine.specs.Steps.{Quiet, Turn, Tick, Sole};
ghost use Rattle.engine.specs.Lookups.{FirstOpen};

use crate::engine::Engine;
use crate::state::*;
use crate::word::Word;
use policies::policy::Policy;
use tasks::job::Outcome;
use tasks::line::Line;
use tasks::refusal::Refusal;
use tasks::table::Table;

// The place of the first open job, and the job.
fn first_open(tasks: &[Task]) -> Option<(usize, OpenJob)>
    ensures { MatchOption result ((k : ℕ) → k < length tasks.now → (slice_index_or tasks.now k unused).job ≡ None) (λ x. FirstOpen tasks.now x.0 x.1) }
{
    tasks
        .iter()
        .enumerate()
        .find_map(|(i, task)| task.job.map(|job| (i, job)))
}

// The task that a tick goes to: its place among the records, its line and its job.
#[derive(Clone, Copy)]
struct Running {
    place: usize,
    line: Line,
    job: OpenJob,
}

impl<P: Policy> Engine<P> {
    // The task of a table with the smallest number that has an open job.
    fn running(&self, table: &Table) -> Option<Running>
        ensures { MatchOption result (Quiet (status_of self.now.state) (lines_of table.now)) (λ x. Turn (status_of self.now.state) (lines_of table.now) (x.place + 1) x.line x.job) }
    {
        let lines = table.lines();
        let (place, job) = first_open(&self.state.tasks[..lines.len()])?;
        Some(Running {
            place,
            line: lines[place],
            job,
        })
    }

    // The record of a task after a tick that came out so, if `job` is what then runs.
    fn task_after(&self, line: &Line, task: &Task, job: OpenJob, outcome: Outcome) -> Task
        requires { task.now.ends < 2 ^ 64 - 1 }
        ensures { (o : OpenJob) → job ≡ running_after line.now o outcome → result ≡ task_after (meaning P.Policy self.now.policy) line.now task.now o outcome }
    {
        match outcome {
            Outcome::Ended(ending) => Task {
                mark: self.policy.next_mark(line, task.mark, ending),
                ends: task.ends + 1,
                job: None,
                ..*task
            },
            _ => Task {
                job: Some(job),
                ..*task
            },
        }
    }

    // Gives a tick with a word to the open job with the smallest task number, and tells the task and how the tick came
    // out; with no open job the pair is 0 and idle, since numbers from 1 name tasks wherever answers are printed and an Option
    // would be taken apart for that alone. The word is any number, since a narrower type would leave it to the caller to refuse one.
    #[tactic(auto, using(crate::proofs::Sole::tick_sole))]
    pub fn tick(&mut self, word: u32) -> Result<(u32, Outcome), Refusal>
        ensures step { Tick (meaning P.Policy self.old.policy) (status_of self.old.state) word result (status_of self.new.state) }
        ensures only { Sole (Tick (meaning P.Policy self.old.policy) (status_of self.old.state) word) }
        ensures policy { self.new.policy ≡ self.old.policy }
    {
        let setup = self.state.setup.as_ref().ok_or(Refusal::Shut)?;
        if self.state.ticks >= MOST_TICKS {
            return Err(Refusal::TicksSpent);
        }
        let word = Word::try_from(word)?;
        let Some(running) = self.running(&setup.table) else {
            if word != Word::GoesOn {
                return Err(Refusal::TickWord);
            }
            self.state.ticks += 1;
            return Ok((0, Outcome::Idle));
        };
        let Running {
            place,
            line,
            mut job,
        } = running;
        let outcome = job.advance(&line, word).ok_or(Refusal::TickWord)?;
        let held = self.state.tasks[place];
        self.state.tasks[place] = self.task_after(&line, &held, job, outcome);
        self.state.ticks += 1;
        Ok((place as u32 + 1, outcome))
    }
}
