// A technique as a policy: it plans every line by itself, whatever technique the line names.
ghost use Rattle.policies.specs.Techniques.{technique_takes, technique_plan, technique_next, technique_demand, technique_bits, technique_turn, room_to_recover};
ghost use Rattle.std.specs.Prelude.{◌≡◌};
ghost use Rattle.policies.specs.Kept.{technique_keeps};

use crate::pattern::{BitPlans, worst_of};
use crate::policy::Policy;
use tasks::job::{Ending, Plan};
use tasks::line::Line;
use tasks::technique::Technique;
use words::turns::turn;

fn has_room_to_recover(line: &Line) -> bool
    ensures { result ≡ room_to_recover line.now }
{
    worst_of(line, Plan::Recover) <= u64::from(line.period)
}

// The plans of a 0 and of a 1; FR goes by no bits.
fn bit_plans(technique: Technique) -> Option<BitPlans>
    ensures { result ≡ technique_bits technique }
{
    let (on_zero, on_one) = match technique {
        Technique::Fr => return None,
        Technique::Sre => (Plan::Bare, Plan::Correct),
        Technique::Sdr => (Plan::Bare, Plan::Recover),
        Technique::Dre => (Plan::Detect, Plan::Correct),
        Technique::Ddr => (Plan::Detect, Plan::Recover),
    };
    Some(BitPlans { on_zero, on_one })
}

// By how many places a line's word is turned: two techniques rearrange it.
fn turn_for(technique: Technique, line: &Line) -> u32
    ensures { result ≡ technique_turn technique line.now }
{
    match technique {
        Technique::Fr | Technique::Sre | Technique::Sdr => 0,
        Technique::Dre | Technique::Ddr => turn(line.word, line.k),
    }
}

impl Policy for Technique {
    ghost takes = { technique_takes };

    ghost plan = { technique_plan };

    ghost next = { technique_next };

    ghost demand = { technique_demand };

    ghost reliable = { λ p l taken. (technique_keeps p l).reliable };

    ghost bounded = { λ p l taken. (technique_keeps p l).bounded };

    ghost none = { λ p l taken. (technique_keeps p l).none };

    ghost rising = { λ p l taken. (technique_keeps p l).rising };

    ghost capped = { λ p l taken. (technique_keeps p l).capped };

    fn accepts(&self, line: &Line) -> bool {
        match *self {
            Technique::Fr | Technique::Sre | Technique::Dre => true,
            Technique::Sdr | Technique::Ddr => has_room_to_recover(line),
        }
    }

    fn plan_at(&self, line: &Line, mark: u64) -> Plan {
        match bit_plans(*self) {
            None => Plan::Correct,
            Some(plans) => plans.plan_at(line, turn_for(*self, line), mark),
        }
    }

    fn next_mark(&self, line: &Line, mark: u64, ending: Ending) -> u64 {
        match bit_plans(*self) {
            None => mark,
            Some(plans) => plans.next_mark(line, turn_for(*self, line), mark, ending),
        }
    }

    fn demand_of(&self, line: &Line, jobs: u32) -> u64 {
        match bit_plans(*self) {
            None => u64::from(jobs) * worst_of(line, Plan::Correct),
            Some(plans) => plans.demand_of(line, jobs),
        }
    }
}

#[cfg(test)]
mod tests {
    use super::*;
    use std::test::Fail;
    use tasks::line::Times;
    use tasks::name::Name;

    fn line(word: u64) -> Option<Line> {
        let times = Times {
            bare: 10,
            detect: 11,
            correct: 20,
        };
        Line::new(Name::new(b"CAM")?, Technique::Sre, 2, 4, word, times, 40)
    }

    #[test]
    fn demands_go_round_the_word(rt: HostRuntime) -> Result<(), Fail> {
        // 0101 and 0011, bit 0 first
        let Some(spread) = line(10) else {
            return Err(Fail::new("no line"));
        };
        let Some(last) = line(12) else {
            return Err(Fail::new("no line"));
        };
        assert_eq!(rt; Technique::Sre.demand_of(&spread, 0), 0);
        assert_eq!(rt; Technique::Sre.demand_of(&spread, 1), 20);
        assert_eq!(rt; Technique::Sre.demand_of(&spread, 2), 30);
        assert_eq!(rt; Technique::Sre.demand_of(&spread, 5), 80);
        assert_eq!(rt; Technique::Dre.demand_of(&spread, 5), 82);
        assert_eq!(rt; Technique::Sre.demand_of(&last, 2), 40);
        assert_eq!(rt; Technique::Fr.demand_of(&last, u32::MAX), 85899345900);
        Ok(())
    }

    #[test]
    fn marks_of_all_sizes(rt: HostRuntime) -> Result<(), Fail> {
        let Some(last) = line(12) else {
            return Err(Fail::new("no line"));
        };
        assert_eq!(rt; Technique::Sre.next_mark(&last, u64::MAX, Ending::Sure), 0);
        assert_eq!(rt;
            Technique::Sre.next_mark(&last, u64::MAX, Ending::Clean),
            u64::MAX
        );
        assert_eq!(rt; Technique::Dre.next_mark(&last, 4, Ending::Clean), 4);
        assert_eq!(rt; Technique::Dre.next_mark(&last, 4, Ending::Bad), 1);
        Ok(())
    }
}
