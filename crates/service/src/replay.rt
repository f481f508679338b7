// A whole log of an engine.
ghost use Rattle.std.specs.Prelude.{◌≡◌, map, reverse};
ghost use Rattle.policies.specs.Means.{meaning};
ghost use Rattle.engine.specs.Status.{status_of};
ghost use Rattle.service.specs.Served.{calls};
ghost use Rattle.service.specs.Guarantee.{Service};

use crate::apply::{apply, start};
use crate::log::*;
use engine::engine::Engine;
use policies::policy::Policy;

// Makes the calls of a log on a new engine, from the first to the last, and writes down the answer of each; what the
// answers held before does not count. The log filled in is served and guaranteed, and the engine handed back tells it.
pub fn replay<P: Policy>(policy: P, log: &mut [Entry]) -> Engine<P>
    ensures calls { calls log.new ≡ calls log.old }
    ensures service { Service (meaning P.Policy policy) (reverse log.new) (status_of result.state) }
    ensures policy { result.policy ≡ policy }
{
    let mut engine = start(policy);
    for item in log.iter_mut() {
        item.answer = apply(&mut engine, &item.call);
    }
    engine
}
