// Policies that go by the bits of a line's word, one after the other, going round: what they share, given the
// plans of a 0 and of a 1 and by how many places the word is turned left.
ghost use Rattle.std.specs.Prelude.{◌≡◌, ◌≤◌};
ghost use Rattle.words.specs.Sums.{GreatestRow};
ghost use Rattle.policies.specs.Endings.{Allows, worst};
ghost use Rattle.policies.specs.Promises.{most_per_job};
ghost use Rattle.policies.specs.Patterns.{moves, plan_of_bit, pattern_plan, pattern_next, bit_cost, pattern_demand};

use crate::costs::BitCosts;
use tasks::job::{Ending, Plan, Version};
use tasks::line::Line;
use words::bits::bit_at;

// Whether the mark goes on after an ending.
fn goes_on(plan: Plan, ending: Ending) -> bool
    ensures { result ≡ moves plan ending }
{
    matches!(
        (plan, ending),
        (Plan::Bare, Ending::Blind)
            | (Plan::Detect, Ending::Bad)
            | (Plan::Correct, Ending::Sure)
            | (Plan::Recover, Ending::Clean | Ending::Sure)
    )
}

// The most that a job of a plan costs.
pub(crate) fn worst_of(line: &Line, plan: Plan) -> u64
    ensures is { result ≡ worst line.now plan }
    ensures small { result ≤ most_per_job }
{
    match plan {
        Plan::Bare => u64::from(line.time(Version::Bare)),
        Plan::Detect => u64::from(line.time(Version::Detect)),
        Plan::Correct => u64::from(line.time(Version::Correct)),
        Plan::Recover => {
            u64::from(line.time(Version::Detect)) + u64::from(line.time(Version::Correct))
        }
    }
}

// The plans of a 0 and of a 1.
#[derive(Clone, Copy, PartialEq, Eq)]
pub struct BitPlans {
    pub on_zero: Plan,
    pub on_one: Plan,
}

impl BitPlans {
    // The plan of a bit.
    fn of_bit(self, bit: u64) -> Plan
        ensures { result ≡ plan_of_bit self bit }
    {
        if bit == 0 { self.on_zero } else { self.on_one }
    }

    // What the bits of a line's word cost: each the most that a job of its plan costs.
    fn costs(self, line: &Line) -> BitCosts
        ensures zero { result.zero ≡ worst line.now self.on_zero }
        ensures one { result.one ≡ worst line.now self.on_one }
    {
        BitCosts {
            zero: worst_of(line, self.on_zero),
            one: worst_of(line, self.on_one),
        }
    }

    // The plan at a mark.
    pub fn plan_at(self, line: &Line, turn: u32, mark: u64) -> Plan
        ensures { result ≡ pattern_plan self turn line.now mark }
    {
        let k = u64::from(line.k);
        let place = (mark % k + u64::from(turn)) % k;
        self.of_bit(bit_at(line.word, place as u32))
    }

    // The mark after an ending; one that the plan does not allow leaves the mark as it stands.
    pub fn next_mark(self, line: &Line, turn: u32, mark: u64, ending: Ending) -> u64
        ensures is { result ≡ pattern_next self turn line.now mark ending }
        ensures stays { (Allows (pattern_plan self turn line.now mark) ending → ⊥) → result ≡ mark }
    {
        if goes_on(self.plan_at(line, turn, mark), ending) {
            let k = u64::from(line.k);
            (mark % k + 1) % k
        } else {
            mark
        }
    }

    // The demand of a number of jobs: the greatest sum of as many consecutive bits' costs, going round.
    pub fn demand_of(self, line: &Line, jobs: u32) -> u64
        ensures is { result ≡ pattern_demand self line.now jobs }
        ensures greatest { GreatestRow (bit_cost self line.now) line.now.k jobs result }
    {
        let costs = self.costs(line);
        let rounds = u64::from(jobs / line.k);
        rounds * costs.of_round(line) + costs.greatest_window(line, jobs % line.k)
    }
}
