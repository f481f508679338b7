// The engine, and a new one.
ghost use Rattle.std.specs.Prelude.{◌≡◌, ℕ, ◌≤◌, slice_index_or};
ghost use Rattle.engine.specs.Jobs.{unused};
ghost use Rattle.engine.specs.Status.{status_of, new_status, most_ticks};
ghost use Rattle.engine.specs.Kept.{Fair};

use crate::state::*;
use policies::policy::Policy;

// The policy and the plain state, and what every call keeps.
#[derive(Drop)]
pub struct Engine<P: Policy> {
    pub(crate) policy: P,
    pub(crate) state: State,
    ghost ticked: { state.ticks ≤ most_ticks },
    ghost fair: { (k : ℕ) → Fair state.ticks (slice_index_or state.tasks k unused) },
}

impl<P: Policy> Engine<P> {
    // An engine that is shut: no table, no ticks, all figures 0.
    pub fn new(policy: P) -> Self
        ensures status { status_of result.state ≡ new_status }
        ensures policy { result.policy ≡ policy }
    {
        Engine {
            policy,
            state: State {
                setup: None,
                tasks: [UNUSED; 32],
                ticks: 0,
            },
        }
    }
}
