// The lines that a policy takes, and the two questions that figures put to a policy, each in one place.
ghost use Rattle.std.specs.Prelude.{◌≡◌, ℕ, ◌*◌, ◌≤◌, true, length, MatchResult};
ghost use Rattle.policies.specs.Promises.{most_per_job};
ghost use Rattle.tasks.specs.declared.refusal.Refusal.TheVariants.{Declined};
ghost use Rattle.tasks.specs.Tables.{lines_of};
ghost use Rattle.response.specs.Figures.{Taken, FirstDeclined};

use policies::policy::Policy;
use tasks::line::Line;
use tasks::refusal::Refusal;
use tasks::table::Table;

// Lines, highest priority first, each of which the policy takes.
#[derive(Drop)]
pub(crate) struct Accepted<'a, P: Policy> {
    pub(crate) policy: &'a P,
    pub(crate) lines: &'a [Line],
    ghost few: { length lines.now ≤ 32 },
    ghost taken: { Taken (P.takes policy.now) lines.now (length lines.now) },
}

impl<'a, P: Policy> Accepted<'a, P> {
    // A table's lines, or a refusal with the number of the first that the policy declines.
    pub(crate) fn new(policy: &'a P, table: &'a Table) -> Result<Self, Refusal>
        ensures { MatchResult result (λ a. (a.policy.now ≡ policy.now) × (a.lines.now ≡ lines_of table.now)) (λ e. (n : ℕ) × (e ≡ Declined n) × FirstDeclined (P.takes policy.now) (lines_of table.now) n) }
    {
        let lines = table.lines();
        match lines.iter().position(|line| !policy.accepts(line)) {
            Some(i) => Err(Refusal::Declined { line: i as u32 + 1 }),
            None => Ok(Accepted { policy, lines }),
        }
    }

    // What a number of jobs of one of the lines demand.
    pub(crate) fn demanded(&self, line: &Line, jobs: u32) -> u64
        requires { P.takes self.now.policy.now line.now ≡ true }
        ensures is { result ≡ P.demand self.now.policy.now line.now jobs }
        ensures small { result ≤ most_per_job * jobs }
    {
        self.policy.demand_of(line, jobs)
    }
}
