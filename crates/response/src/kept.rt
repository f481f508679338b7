// What the lines above ask for up to a time, with the demands kept from turn to turn of a search.
ghost use Rattle.std.specs.Prelude.{◌≡◌, ◌+◌, ◌≤◌, true, length, take};
ghost use Rattle.policies.specs.Promises.{most_per_job};
ghost use Rattle.response.specs.Figures.{jobs_by, load_above};
ghost use Rattle.response.specs.Told.{Told, AllTold};

use crate::asks::Accepted;
use policies::policy::Policy;
use tasks::line::Line;

// For how many jobs the demand of a line was last asked, and what was told.
#[derive(Clone, Copy)]
pub(crate) struct Kept {
    pub(crate) jobs: u32,
    pub(crate) demand: u64,
}

impl<P: Policy> Accepted<'_, P> {
    // What is to be kept of a line at the time t: the policy is asked only if the number of jobs has changed. t is a number with a
    // bound and no type of its own, since the search compares and replaces it by loads, which have none.
    fn kept_at(&self, line: &Line, known: Kept, t: u32) -> Kept
        requires time { t ≤ 1000000 }
        requires taken { P.takes self.now.policy.now line.now ≡ true }
        requires told { Told (P.demand self.now.policy.now) line.now known }
        ensures jobs { result.jobs ≡ jobs_by line.now t }
        ensures told { Told (P.demand self.now.policy.now) line.now result }
    {
        let jobs = t.div_ceil(line.period);
        if jobs == known.jobs {
            return known;
        }
        Kept {
            jobs,
            demand: self.demanded(line, jobs),
        }
    }

    // What the line at a place asks for itself, and all the lines above it up to the time t.
    pub(crate) fn load_at(&self, place: usize, own: u64, known: &mut [Kept; 32], t: u32) -> u64
        requires small { (place ≤ length self.now.lines.now) × (own ≤ most_per_job) × (t ≤ 1000000) }
        requires told { AllTold (P.demand self.now.policy.now) self.now.lines.now known.old }
        ensures is { result ≡ own + load_above (P.demand self.now.policy.now) (take place self.now.lines.now) t }
        ensures told { AllTold (P.demand self.now.policy.now) self.now.lines.now known.new }
    {
        let mut load = own;
        // By index: of what a zip with `iter_mut` has written, a proof knows nothing afterwards.
        for (i, line) in self.lines[..place].iter().enumerate() {
            let fresh = self.kept_at(line, known[i], t);
            known[i] = fresh;
            load += fresh.demand;
        }
        load
    }
}
