// Opening a table.
ghost use Rattle.std.specs.Prelude.{◌≡◌};
ghost use Rattle.policies.specs.Means.{meaning};
ghost use Rattle.engine.specs.Status.{status_of};
ghost use Rattle.engine.specs.Steps.{Opening, Sole};

use crate::engine::Engine;
use crate::state::*;
use policies::policy::Policy;
use response::figures::figures;
use tasks::refusal::Refusal;
use tasks::table::Table;

impl<P: Policy> Engine<P> {
    // Puts a table and its figures in place, with no task released, and tells whether the table is admitted. An open
    // engine refuses and stays as it is; after any other refusal it is shut, and all figures are 0.
    #[tactic(auto, using(crate::proofs::Sole::opening_sole))]
    pub fn open(&mut self, table: &Table) -> Result<bool, Refusal>
        ensures step { Opening (meaning P.Policy self.old.policy) (status_of self.old.state) table.now result (status_of self.new.state) }
        ensures only { Sole (Opening (meaning P.Policy self.old.policy) (status_of self.old.state) table.now) }
        ensures policy { self.new.policy ≡ self.old.policy }
    {
        if self.state.setup.is_some() {
            return Err(Refusal::AlreadyOpen);
        }
        let mut places = [0; 32];
        let admitted = figures(&self.policy, table, &mut places)?;
        self.state.setup = Some(Setup {
            table: *table,
            figures: places,
        });
        self.state.tasks = [UNUSED; 32];
        Ok(admitted)
    }
}
