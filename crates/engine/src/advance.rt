// What one tick does to an open job.
ghost use Rattle.std.specs.Prelude.{◌≡◌, ◌≤◌};
ghost use Rattle.engine.specs.Jobs.{first, begun, heard, ran};
ghost use Rattle.engine.specs.Words.{said_by};

use crate::state::*;
use crate::word::Word;
use tasks::job::{Ending, Outcome, Plan, Version};
use tasks::line::Line;

// The first version that runs under a plan.
fn first_version(plan: Plan) -> Version
    ensures { result ≡ first plan }
{
    match plan {
        Plan::Bare => Version::Bare,
        Plan::Detect | Plan::Recover => Version::Detect,
        Plan::Correct => Version::Correct,
    }
}

impl OpenJob {
    // A job just released.
    pub(crate) fn begun(line: &Line, plan: Plan) -> Self
        ensures { result ≡ begun line.now plan }
    {
        let version = first_version(plan);
        OpenJob {
            plan,
            version,
            left: line.time(version),
        }
    }

    // How a tick with the word comes out, and the job after it; none where the word does not fit, and the job is then
    // as it was.
    pub(crate) fn advance(&mut self, line: &Line, word: Word) -> Option<Outcome>
        ensures answer { result ≡ heard self.old (said_by word) }
        ensures job { self.new ≡ ran line.now self.old result }
    {
        match (word, self.version, self.plan) {
            (Word::GoesOn, _, _) => {
                if self.left <= 1 {
                    return None;
                }
                self.left -= 1;
                Some(Outcome::On)
            }
            (Word::Ended, Version::Bare, _) => Some(Outcome::Ended(Ending::Blind)),
            (Word::Ended, Version::Detect, _) => Some(Outcome::Ended(Ending::Clean)),
            (Word::Ended, Version::Correct, _) => Some(Outcome::Ended(Ending::Sure)),
            (Word::Fault, Version::Detect, Plan::Detect) => Some(Outcome::Ended(Ending::Bad)),
            (Word::Fault, Version::Detect, Plan::Recover) => {
                self.version = Version::Correct;
                self.left = line.time(Version::Correct);
                Some(Outcome::Again)
            }
            (Word::Fault, _, _) => None,
        }
    }
}
