//! A store in memory.
ghost use Rattle.std.specs.Prelude.{◌≡◌};
ghost use Rattle.nova_runner.specs.Texts.{workflow_of};

use crate::workflow::Workflow;
use nova_admit::Admitted;
use nova_journal::Journal;
use nova_meta::Catalog;
use nova_trigger::InFlight;
use std::marker::Model;

/// The open journal, the workflow, the catalog and the executions in flight: no table is in memory.
#[derive(Drop)]
pub struct Store {
    pub(crate) journal: Journal,
    pub(crate) flow: Workflow,
    pub(crate) catalog: Catalog,
    /// They end with the store: no file has them.
    pub(crate) flight: InFlight,
}

impl Model for Store {
    ghost use Rattle.std.specs.Prelude.{◌≡◌, true};
    ghost use Rattle.nova_runner.specs.Held.{Held};
    ghost use Rattle.nova_runner.specs.Readable.{IsKept};
    ghost use Rattle.nova_pig_algebra.specs.contracts.node.PlanExpr as e;
    ghost use Rattle.std.specs.Coded.{codes};

    ghost Value = { Held };

    ghost coded = { Prim.hlevel (codes, e.the_row.coded) };

    ghost view = { λ s. record { journal = s.journal; flow = s.flow; catalog = s.catalog; flight = s.flight } };

    ghost invariant = { λ s. IsKept (record { journal = s.journal; flow = s.flow; catalog = s.catalog; flight = s.flight }) };
}

impl Store {
    /// Its workflow, with the patterns of its tasks.
    pub fn admitted(&self) -> &Admitted
        ensures { workflow_of self.now.flow.text result.now.flow result.now.patterns ≡ self.now.flow }
    {
        self.flow.admitted()
    }

    /// Its catalog.
    pub fn catalog(&self) -> &Catalog
        ensures { result.now ≡ self.now.catalog }
    {
        &self.catalog
    }
}
