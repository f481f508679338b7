// The response figures of a table under a policy.
ghost use Rattle.std.specs.Prelude.{◌≡◌, ℕ, ◌+◌, ◌<◌, ◌≤◌, true, length, take, slice_index_or, unwrap_or, Decides, IfSome};
ghost use Rattle.tasks.specs.declared.line.Line.{Line};
ghost use Rattle.tasks.specs.Tables.{lines_of};
ghost use Rattle.response.specs.Figures.{limit, Figure, Figures, Admitted, Answered};

use crate::asks::Accepted;
use crate::kept::Kept;
use policies::policy::Policy;
use std::array;
use tasks::line::Line;
use tasks::refusal::Refusal;
use tasks::table::Table;

// The latest time at which a line's figure may stand.
fn limit(line: &Line) -> u32
    ensures is { result ≡ limit line.now }
    ensures small { result ≤ 1000000 }
{
    line.period
}

impl<P: Policy> Accepted<'_, P> {
    // The smallest time that passes for the line at a place, if one does. The search goes from t to the load at t:
    // everything between fails, since no demand falls.
    fn figure(&self, place: usize) -> Option<u32>
        ensures figure { (l : Line) → place < length self.now.lines.now → Figure (P.demand self.now.policy.now) (take place self.now.lines.now) (slice_index_or self.now.lines.now place l) (unwrap_or result 0) }
        ensures passes { IfSome result (λ t. 1 ≤ t) }
        ensures no_line { length self.now.lines.now ≤ place → result ≡ None }
    {
        let line = self.lines.get(place)?;
        let own = self.demanded(line, 1);
        let mut known = [Kept { jobs: 0, demand: 0 }; 32];
        let mut t = 1;
        while t <= u64::from(limit(line)) {
            let load = self.load_at(place, own, &mut known, t as u32);
            if load <= t {
                return Some(t as u32);
            }
            t = load;
        }
        None
    }

    // 32 places with the figures of the lines; 0 stands where no time passes, and past the lines.
    fn places(&self) -> [u32; 32]
        ensures { Figures (P.demand self.now.policy.now) self.now.lines.now (length self.now.lines.now) result }
    {
        array::from_fn(|place| self.figure(place).unwrap_or(0))
    }

    // Whether no figure of the lines is 0.
    #[tactic(auto, using(crate::proofs::Places::none_zero))]
    fn is_admitted(&self, figures: &[u32; 32]) -> bool
        ensures { Decides result (Admitted (length self.now.lines.now) figures.now) }
    {
        !figures[..self.lines.len()].contains(&0)
    }
}

// Fills 32 places with the figures of a table's lines, and tells whether the table is admitted: no figure of its
// lines is 0. A table without lines is refused, and one with a line that the policy declines; all places are then 0.
// The caller lends the places, and has zeros in them after a refusal. 0 and no Option says that no time passes: so figures are told.
pub fn figures<P: Policy>(
    policy: &P,
    table: &Table,
    figures: &mut [u32; 32],
) -> Result<bool, Refusal>
    ensures { Answered (P.takes policy.now) (P.demand policy.now) (lines_of table.now) figures.new result }
{
    *figures = [0; 32];
    if table.lines().is_empty() {
        return Err(Refusal::NoLines);
    }
    let accepted = Accepted::new(policy, table)?;
    *figures = accepted.places();
    Ok(accepted.is_admitted(figures))
}

#[cfg(test)]
mod tests {
    use super::*;
    use policies::by_line::ByLine;
    use tasks::line::Times;
    use tasks::name::Name;
    use tasks::technique::Technique;

    // A camera with the technique and word, and an arm below it.
    fn cameras(technique: Technique, word: u64, correct: u32) -> Option<Table> {
        let mut table = Table::new();
        let times = Times {
            bare: 10,
            detect: 11,
            correct,
        };
        let camera = Line::new(Name::new(b"CAM")?, technique, 2, 4, word, times, 40)?;
        let times = Times {
            bare: 30,
            detect: 40,
            correct: 50,
        };
        let arm = Line::new(Name::new(b"ARM")?, Technique::Sre, 1, 1, 1, times, 80)?;
        if table.push(camera).is_err() || table.push(arm).is_err() {
            return None;
        }
        Some(table)
    }

    // The first two places, and whether the table is admitted, or the number and the line of the refusal.
    fn figures_of(table: Option<Table>) -> Option<([u32; 2], Result<bool, (u32, u32)>)> {
        let mut places = [7; 32];
        let answer = figures(&ByLine {}, &table?, &mut places);
        let told = answer.map_err(|refusal| (refusal.number(), refusal.line()));
        Some(([places[0], places[1]], told))
    }

    #[test]
    fn cameras_and_arms(rt: HostRuntime) {
        assert_eq!(rt;
            figures_of(cameras(Technique::Sre, 10, 20)),
            Some(([20, 80], Ok(true)))
        );
        assert_eq!(rt;
            figures_of(cameras(Technique::Sre, 12, 20)),
            Some(([20, 0], Ok(false)))
        );
        assert_eq!(rt;
            figures_of(cameras(Technique::Dre, 10, 20)),
            Some(([20, 0], Ok(false)))
        );
        assert_eq!(rt;
            figures_of(cameras(Technique::Sdr, 10, 30)),
            Some(([0, 0], Err((8, 1))))
        );
        assert_eq!(rt; figures_of(Some(Table::new())), Some(([0, 0], Err((9, 0)))));
    }
}
