// What an engine tells of a task, and the task that a number names.
ghost use Rattle.std.specs.Prelude.{◌≡◌, ℕ, List, Result};
ghost use Rattle.tasks.specs.declared.refusal.Refusal.{Refusal};
ghost use Rattle.engine.specs.Status.{status_of};
ghost use Rattle.engine.specs.Steps.{CountsAsked, FigureAsked, Sole};
ghost use Rattle.engine.specs.Lookups.{TaskFound};

use crate::engine::Engine;
use policies::policy::Policy;
use tasks::line::Line;
use tasks::refusal::Refusal;

// A task that was found by its number: its place among the records, its line and its response figure.
#[derive(Clone, Copy)]
pub(crate) struct Found {
    pub(crate) place: usize,
    pub(crate) line: Line,
    pub(crate) figure: u32,
}

impl<P: Policy> Engine<P> {
    // The task with a number.
    pub(crate) fn found(&self, task: u32) -> Result<Found, Refusal>
        ensures { TaskFound (status_of self.now.state) task result (status_of self.now.state) }
    {
        let setup = self.state.setup.as_ref().ok_or(Refusal::Shut)?;
        let line = *setup.table.line(task)?;
        // `as`: a u32 has no `From` to usize.
        let place = task as usize - 1;
        Ok(Found {
            place,
            line,
            figure: setup.figures[place],
        })
    }

    // How often a task was released since the opening, and how many of its jobs ended.
    #[tactic(auto, using(crate::proofs::Sole::counts_sole))]
    pub fn counts(&self, task: u32) -> Result<(u64, u64), Refusal>
        ensures told { CountsAsked (status_of self.now.state) task result (status_of self.now.state) }
        ensures only { Sole (CountsAsked (status_of self.now.state) task) }
    {
        let held = self.state.tasks[self.found(task)?.place];
        Ok((held.releases, held.ends))
    }

    // The response figure of a task.
    #[tactic(auto, using(crate::proofs::Sole::figure_sole))]
    pub fn figure(&self, task: u32) -> Result<u32, Refusal>
        ensures told { FigureAsked (status_of self.now.state) task result (status_of self.now.state) }
        ensures only { Sole (FigureAsked (status_of self.now.state) task) }
    {
        Ok(self.found(task)?.figure)
    }
}
