// Lines that differ only by a turn of the word.
ghost use Rattle.std.specs.Prelude.{◌≡◌, ℕ, ◌<◌, Decides};
ghost use Rattle.words.specs.Bits.{bit};
ghost use Rattle.words.specs.Turns.{turned_bit};
ghost use Rattle.tasks.specs.Tables.{lines_of};
ghost use Rattle.tasks.specs.Twins.{Twins, Asked};

use crate::line::Line;
use crate::refusal::Refusal;
use crate::table::Table;
use words::bits::bit_at;

// Whether the k bits of b's word are those of a's turned left by so many places.
fn is_turned_by(a: &Line, b: &Line, by: u32) -> bool
    requires { by < a.now.k }
    ensures { Decides result ((j : ℕ) → j < a.now.k → bit b.now.word j ≡ turned_bit a.now.word a.now.k by j) }
{
    (0..a.k).all(|place| bit_at(b.word, place) == bit_at(a.word, (place + by) % a.k))
}

fn are_twins(a: &Line, b: &Line) -> bool
    ensures { Decides result (Twins a.now b.now) }
{
    (a.technique, a.m, a.k, a.times, a.period) == (b.technique, b.m, b.k, b.times, b.period)
        && (0..a.k).any(|by| is_turned_by(a, b, by))
}

impl Table {
    // Whether the lines with these numbers are twins.
    pub fn twins(&self, a: u32, b: u32) -> Result<bool, Refusal>
        ensures { Asked (lines_of self.now) a b result }
    {
        let first = self.line(a)?;
        let second = self.line(b)?;
        Ok(are_twins(first, second))
    }
}
