// Releasing a task.
ghost use Rattle.std.specs.Prelude.{◌≡◌, ◌+◌, ◌≤◌, ◌⊎◌, Decides};
ghost use Rattle.policies.specs.Means.{meaning};
ghost use Rattle.engine.specs.Status.{status_of};
ghost use Rattle.engine.specs.Steps.{Rested, Release, Sole};

use crate::engine::Engine;
use crate::questions::Found;
use crate::state::*;
use policies::policy::Policy;
use tasks::job::Plan;
use tasks::line::Line;
use tasks::refusal::Refusal;

impl Task {
    // Whether a period has passed since the last release, or there was none.
    fn is_rested(&self, line: &Line, ticks: u64) -> bool
        requires { self.now.last ≤ ticks }
        ensures { Decides result (Rested ticks line.now self.now) }
    {
        self.releases == 0 || ticks - self.last >= u64::from(line.period)
    }
}

impl<P: Policy> Engine<P> {
    // Starts a job of a task with the policy's plan, and tells the plan.
    #[tactic(auto, using(crate::proofs::Sole::release_sole))]
    pub fn release(&mut self, task: u32) -> Result<Plan, Refusal>
        ensures step { Release (meaning P.Policy self.old.policy) (status_of self.old.state) task result (status_of self.new.state) }
        ensures only { Sole (Release (meaning P.Policy self.old.policy) (status_of self.old.state) task) }
        ensures policy { self.new.policy ≡ self.old.policy }
    {
        let Found { place, line, .. } = self.found(task)?;
        let held = self.state.tasks[place];
        if !held.is_rested(&line, self.state.ticks) {
            return Err(Refusal::TooEarly);
        }
        if held.job.is_some() {
            return Err(Refusal::JobOpen);
        }
        let plan = self.policy.plan_at(&line, held.mark);
        self.state.tasks[place] = Task {
            releases: held.releases + 1,
            last: self.state.ticks,
            job: Some(OpenJob::begun(&line, plan)),
            ..held
        };
        Ok(plan)
    }
}
