// Tables made line by line.
ghost use Rattle.std.specs.Prelude.{◌≡◌, ℕ, ◌-◌, ◌≤◌, [], length, Decides, MatchResult};
ghost use Rattle.tasks.specs.declared.refusal.Refusal.TheVariants.{NoSuchTask};
ghost use Rattle.tasks.specs.Named.{name_bytes};
ghost use Rattle.tasks.specs.Tables.{lines_of, IsLine, Numbered, Used, last_period, Pushed};

use crate::line::{Line, Times};
use crate::name::Name;
use crate::refusal::Refusal;
use crate::table::Table;
use crate::technique::Technique;

// Why a line is not added to a table, in the order in which it is tested.
#[derive(Clone, Copy, PartialEq, Eq, Debug)]
pub enum Unfit {
    // the table has 32 lines already
    Full,
    // a line of the table has the name
    NameUsed,
    // the period is below that of the last line
    PeriodFalls,
}

// What stands behind the lines of a new table: an array has a value at each place.
fn filler() -> Line {
    let name = Name {
        bytes: [b'A'; 8],
        len: 1,
    };
    let times = Times {
        bare: 1,
        detect: 2,
        correct: 3,
    };
    Line {
        name,
        technique: Technique::Fr,
        m: 1,
        k: 1,
        word: 1,
        times,
        period: 3,
    }
}

impl Table {
    // A table without lines.
    pub fn new() -> Self
        ensures { lines_of result ≡ [] }
    {
        let line = filler();
        Table {
            lines: [line; 32],
            len: 0,
        }
    }

    // The lines, in order.
    pub fn lines(&self) -> &[Line]
        ensures is { result.now ≡ lines_of self.now }
        ensures count { length result.now ≡ self.now.len }
        ensures few { length result.now ≤ 32 }
    {
        &self.lines[..self.len]
    }

    // The line with a number, from 1.
    pub fn line(&self, number: u32) -> Result<&Line, Refusal>
        ensures { MatchResult result (λ l. Numbered (lines_of self.now) number l.now) (λ e. (e ≡ NoSuchTask) × (IsLine (lines_of self.now) number → ⊥)) }
    {
        number
            .checked_sub(1)
            // `as`: a u32 has no `From` to usize.
            .and_then(|place| self.lines().get(place as usize))
            .ok_or(Refusal::NoSuchTask)
    }

    fn uses(&self, name: &Name) -> bool
        ensures { Decides result (Used (name_bytes name.now) (lines_of self.now)) }
    {
        self.lines().iter().any(|line| line.name == *name)
    }

    fn last_period(&self) -> u32
        ensures { result ≡ last_period (lines_of self.now) }
    {
        self.lines().last().map_or(0, |line| line.period)
    }

    // Adds a line at the end; a table that the line does not fit stays as it is.
    pub fn push(&mut self, line: Line) -> Result<(), Unfit>
        ensures { Pushed self.old line result self.new }
    {
        if self.lines().len() >= 32 {
            return Err(Unfit::Full);
        }
        if self.uses(&line.name) {
            return Err(Unfit::NameUsed);
        }
        if line.period < self.last_period() {
            return Err(Unfit::PeriodFalls);
        }
        self.lines[self.len] = line;
        self.len += 1;
        Ok(())
    }
}
