// The techniques by which a line's jobs are made reliable.
ghost use Rattle.std.specs.Prelude.{◌≡◌, Some, MatchOption, ◌≢◌};
ghost use Rattle.tasks.specs.declared.technique.Technique.{Technique};
ghost use Rattle.tasks.specs.Spelled.{technique_word};

use std::fmt;

#[derive(Clone, Copy, PartialEq, Eq, Debug)]
pub enum Technique {
    // every job corrects
    Fr,
    // a 0 runs bare, a 1 corrects
    Sre,
    // a 0 runs bare, a 1 detects and recovers
    Sdr,
    // a 0 detects and postpones the pattern while no fault is found, a 1 corrects
    Dre,
    // a 0 detects and postpones, a 1 detects and recovers
    Ddr,
}

impl Technique {
    // The word that names it in a table text.
    pub fn word(self) -> &'static str
        ensures { result.now ≡ technique_word self }
    {
        match self {
            Technique::Fr => "FR",
            Technique::Sre => "SRE",
            Technique::Sdr => "SDR",
            Technique::Dre => "DRE",
            Technique::Ddr => "DDR",
        }
    }

    // The technique that a word names. An Option and no `TryFrom`: why a word is refused, only its reader can say.
    pub fn named(word: &[u8]) -> Option<Technique>
        ensures { MatchOption result ((t : Technique) → word.now ≢ technique_word t) (λ t. word.now ≡ technique_word t) }
    {
        match word {
            b"FR" => Some(Technique::Fr),
            b"SRE" => Some(Technique::Sre),
            b"SDR" => Some(Technique::Sdr),
            b"DRE" => Some(Technique::Dre),
            b"DDR" => Some(Technique::Ddr),
            _ => None,
        }
    }
}

impl fmt::Display for Technique {
    ghost output = { λ t. Some (technique_word t) };

    fn fmt<W: fmt::Write>(&self, f: &mut fmt::Formatter<W>) -> fmt::Result {
        f.write_str(Technique::word(*self))
    }
}
