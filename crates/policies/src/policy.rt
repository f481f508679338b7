// What a policy tells, and what it owes to whoever uses it.
ghost use Rattle.std.specs.Prelude.{◌≡◌, ℕ, Bool, true};
ghost use Rattle.tasks.specs.declared.line.Line.{Line};
ghost use Rattle.tasks.specs.declared.job.Plan.{Plan};
ghost use Rattle.tasks.specs.declared.job.Ending.{Ending};
ghost use Rattle.policies.specs.Promises.{Reliable, Bounded, Rising, Capped};

use tasks::job::{Ending, Plan};
use tasks::line::Line;

// The most that a policy may demand for a job.
pub const MOST_PER_JOB: u64 = 2_000_000;

// The ghost members are what a policy means; the methods tell their values and change nothing. Of every line
// that it takes a policy owes the laws, and nothing else is known of it to the code above.
pub trait Policy {
    // whether it takes a line
    ghost takes: { Self → Line → Bool };

    // the plan for a line at a mark
    ghost plan: { Self → Line → ℕ → Plan };

    // the mark after an ending
    ghost next: { Self → Line → ℕ → Ending → ℕ };

    // what any n jobs in a row may cost at most
    ghost demand: { Self → Line → ℕ → ℕ };

    fn accepts(&self, line: &Line) -> bool
        ensures { result ≡ takes self.now line.now };

    fn plan_at(&self, line: &Line, mark: u64) -> Plan
        ensures { result ≡ plan self.now line.now mark };

    fn next_mark(&self, line: &Line, mark: u64, ending: Ending) -> u64
        ensures { result ≡ next self.now line.now mark ending };

    fn demand_of(&self, line: &Line, jobs: u32) -> u64
        ensures { result ≡ demand self.now line.now jobs };

    // any k endings in a row of a run hold at least m right ones
    ghost reliable: { (p : Self) (l : Line) → takes p l ≡ true → Reliable l (plan p l) (next p l) };

    // any n jobs in a row of a run cost at most the demand of n
    ghost bounded: { (p : Self) (l : Line) → takes p l ≡ true → Bounded l (plan p l) (next p l) (demand p l) };

    // no jobs demand nothing
    ghost none: { (p : Self) (l : Line) → takes p l ≡ true → demand p l 0 ≡ 0 };

    // the demand never falls as the number of jobs grows
    ghost rising: { (p : Self) (l : Line) → takes p l ≡ true → Rising (demand p l) };

    // n jobs demand at most n times the most for a job
    ghost capped: { (p : Self) (l : Line) → takes p l ≡ true → Capped (demand p l) };
}
