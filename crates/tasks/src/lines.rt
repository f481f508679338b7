// Lines made from values, and their versions' times.
ghost use Rattle.std.specs.Prelude.{◌≡◌, ◌≤◌, MatchOption};
ghost use Rattle.tasks.specs.Lines.{time, Lawful, Says};

use crate::job::Version;
use crate::line::{Line, Times};
use crate::name::Name;
use crate::technique::Technique;
use words::bits::count_ones;
use words::quota::Quota;

impl Line {
    // The line with these values; none unless they keep the rules of a line. They come one by one and no `Quota` is asked for, since
    // a caller has plain numbers, and the refusal is made here.
    pub fn new(
        name: Name,
        technique: Technique,
        m: u32,
        k: u32,
        word: u64,
        times: Times,
        period: u32,
    ) -> Option<Line>
        ensures { MatchOption result (Lawful m k word times period → ⊥) (λ l. Lawful m k word times period × Says l name technique m k word times period) }
    {
        let Quota { m, k } = Quota::new(m, k)?;
        if k < 64 && word >> k != 0 {
            return None;
        }
        if count_ones(word, k) != m {
            return None;
        }
        if times.bare < 1 || times.detect <= times.bare || times.correct <= times.detect {
            return None;
        }
        if period < times.correct || period > 1_000_000 {
            return None;
        }
        Some(Line {
            name,
            technique,
            m,
            k,
            word,
            times,
            period,
        })
    }

    // The most ticks that a version takes.
    pub fn time(&self, version: Version) -> u32
        ensures is { result ≡ time self.now version }
        ensures small { (1 ≤ result) × (result ≤ 1000000) }
    {
        match version {
            Version::Bare => self.times.bare,
            Version::Detect => self.times.detect,
            Version::Correct => self.times.correct,
        }
    }
}
