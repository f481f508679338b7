// One call of an engine.
ghost use Rattle.std.specs.Prelude.{◌≡◌, List, [], ◌∷◌};
ghost use Rattle.policies.specs.Means.{meaning};
ghost use Rattle.engine.specs.Status.{status_of};
ghost use Rattle.service.specs.declared.log.Entry.{Entry};
ghost use Rattle.service.specs.Served.{Answers, Served};
ghost use Rattle.service.specs.Guarantee.{Service};

use crate::log::*;
use engine::engine::Engine;
use policies::policy::Policy;

// Makes the call. A `match`, since calls are a closed set that a log keeps as values: closures could not be kept or compared.
fn made<P: Policy>(engine: &mut Engine<P>, call: &Call) -> Answer
    ensures step { Answers (meaning P.Policy engine.old.policy) (status_of engine.old.state) call.now result (status_of engine.new.state) }
    ensures policy { engine.new.policy ≡ engine.old.policy }
{
    match call {
        Call::Open { table } => engine
            .open(table)
            .map(|admitted| Reply::Opened { admitted }),
        Call::Release { task } => engine.release(*task).map(|plan| Reply::Planned { plan }),
        Call::Tick { word } => engine
            .tick(*word)
            .map(|(task, outcome)| Reply::Ticked { task, outcome }),
        Call::Counts { task } => engine
            .counts(*task)
            .map(|(releases, ends)| Reply::Counted { releases, ends }),
        Call::Figure { task } => engine.figure(*task).map(|figure| Reply::Figured { figure }),
    }
}

// A new engine, whose log is empty.
pub fn start<P: Policy>(policy: P) -> Engine<P>
    ensures service { Service (meaning P.Policy policy) [] (status_of result.state) }
    ensures policy { result.policy ≡ policy }
{
    Engine::new(policy)
}

// Makes a call. Whatever log the engine has, the log with this call and its answer is served and guaranteed, and the
// engine tells it.
pub fn apply<P: Policy>(engine: &mut Engine<P>, call: &Call) -> Answer
    ensures step { Answers (meaning P.Policy engine.old.policy) (status_of engine.old.state) call.now result (status_of engine.new.state) }
    ensures service { (log : List Entry) → Served (meaning P.Policy engine.old.policy) log (status_of engine.old.state) → Service (meaning P.Policy engine.old.policy) (record { call = call.entry.now; answer = result } ∷ log) (status_of engine.new.state) }
    ensures policy { engine.new.policy ≡ engine.old.policy }
{
    made(engine, call)
}
