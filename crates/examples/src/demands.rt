// What SRE demands on lines with two words.
ghost use Rattle.std.specs.Prelude.{◌≡◌, Some};
ghost use Rattle.examples.specs.Demands.{FitWord, sre_demand, demands_told};

use policies::policy::Policy;
use tasks::line::{Line, Times};
use tasks::name::Name;
use tasks::technique::Technique;

// What SRE demands for a number of jobs, by a word of four bits, with u = 10 and r = 20.
fn demand(word: u64, jobs: u32) -> Option<u64>
    ensures { FitWord word → result ≡ Some (sre_demand word jobs) }
{
    let times = Times {
        bare: 10,
        detect: 11,
        correct: 20,
    };
    let line = Line::new(Name::new(b"CAM")?, Technique::Sre, 2, 4, word, times, 40)?;
    Some(Technique::Sre.demand_of(&line, jobs))
}

// By the word 0101 for 0, 1, 2 and 5 jobs, and by the word 0011 for 2.
pub(crate) fn demands() -> [Option<u64>; 5]
    ensures { result ≡ demands_told }
{
    [
        demand(10, 0),
        demand(10, 1),
        demand(10, 2),
        demand(10, 5),
        demand(12, 2),
    ]
}
