// A line of a task table.
ghost use Rattle.std.specs.Prelude.{◌≡◌, ◌^◌, ◌<◌, ◌≤◌};
ghost use Rattle.words.specs.Bits.{ones};
ghost use Rattle.words.specs.Patterns.{Window};

use crate::name::Name;
use crate::technique::Technique;

// The worst-case times of the three versions, in ticks.
#[derive(Clone, Copy, PartialEq, Eq, Debug)]
pub struct Times {
    pub bare: u32,
    pub detect: u32,
    pub correct: u32,
}

// A task: its name and technique, that m of any k jobs in a row are to come out right, the word of k bits
// with m ones that a technique may go by, the times of its versions, and its period. m and k are two fields and no `Quota`: they
// are read one by one nearly everywhere, and a path through the quota would be longer and say no more.
#[derive(Clone, Copy)]
pub struct Line {
    pub name: Name,
    pub technique: Technique,
    pub m: u32,
    pub k: u32,
    pub word: u64,
    pub(crate) times: Times,
    pub period: u32,
    ghost window: { Window m k },
    ghost narrow: { word < 2 ^ k },
    ghost reliable: { ones k word ≡ m },
    ghost ordered: { (1 ≤ times.bare) × (times.bare < times.detect) × (times.detect < times.correct) × (times.correct ≤ period) × (period ≤ 1000000) },
}
