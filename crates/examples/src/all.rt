// All worked examples together.
ghost use Rattle.examples.specs.Worked.{Worked};

use crate::cameras::*;
use crate::demands::demands;
use crate::patterns::{patterns, turned};
use crate::run::engine_run;
use service::log::Entry;
use std::alloc::{AllocError, Global};

#[derive(Drop)]
pub struct Examples {
    // the words R(3,10), E(3,10), E(7,10), R(1,1) and E(1,1)
    pub patterns: [Option<u64>; 5],
    // by how many places the word 11001 is turned to be rearranged, and what it then is
    pub turned: (u32, Option<u64>),
    // what SRE demands with u = 10 and r = 20: by the word 0101 for 0, 1, 2 and 5 jobs, by the word 0011 for 2
    pub demands: [Option<u64>; 5],
    // the report of a camera and an arm
    pub report: Result<Vec<u8>, AllocError>,
    // their figures with R for E, and with DRE for the camera
    pub figures: [[u32; 32]; 2],
    // number, line and place of the refusals with 40 for the arm's r, and of no byte
    pub refusals: [Option<(u32, u32, usize)>; 2],
    // the calls of an engine, with their answers
    pub run: [Entry; 12],
}

// Works them out.
pub fn all(heap: Global) -> Examples
    ensures { Worked result }
{
    Examples {
        patterns: patterns(),
        turned: turned(),
        demands: demands(),
        report: reported(heap),
        figures: figures_by_change(),
        refusals: refusals(),
        run: engine_run(),
    }
}
