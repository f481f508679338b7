// The policy that uses on each line the technique that the line names. An impl beside that of `Technique`, to which it hands
// each question: the two differ in where the technique comes from, and nothing stands twice.
ghost use Rattle.tasks.specs.declared.line.Line.{Line};
ghost use Rattle.policies.specs.Techniques.{technique_takes, technique_plan, technique_next, technique_demand};
ghost use Rattle.policies.specs.Kept.{technique_keeps};

use crate::policy::Policy;
use tasks::job::{Ending, Plan};
use tasks::line::Line;

#[derive(Clone, Copy)]
pub struct ByLine {}

impl Policy for ByLine {
    ghost takes = { λ _ l. technique_takes l.technique l };

    ghost plan = { λ _ l. technique_plan l.technique l };

    ghost next = { λ _ l. technique_next l.technique l };

    ghost demand = { λ _ l. technique_demand l.technique l };

    ghost reliable = { λ p l taken. (technique_keeps l.technique l).reliable };

    ghost bounded = { λ p l taken. (technique_keeps l.technique l).bounded };

    ghost none = { λ p l taken. (technique_keeps l.technique l).none };

    ghost rising = { λ p l taken. (technique_keeps l.technique l).rising };

    ghost capped = { λ p l taken. (technique_keeps l.technique l).capped };

    fn accepts(&self, line: &Line) -> bool {
        line.technique.accepts(line)
    }

    fn plan_at(&self, line: &Line, mark: u64) -> Plan {
        line.technique.plan_at(line, mark)
    }

    fn next_mark(&self, line: &Line, mark: u64, ending: Ending) -> u64 {
        line.technique.next_mark(line, mark, ending)
    }

    fn demand_of(&self, line: &Line, jobs: u32) -> u64 {
        line.technique.demand_of(line, jobs)
    }
}
