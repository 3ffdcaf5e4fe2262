//! Admitted workflows.
ghost use Rattle.std.specs.Prelude.{◌≡◌, ◌<◌, Some, length, map, slice_get, IfOk, IfErr};
ghost use Rattle.nova_workflow.specs.declared.flow.Task.{Task};
ghost use Rattle.nova_workflow.specs.Whole.{IsFlow};
ghost use Rattle.nova_admit.specs.Flows as spec;
ghost use Rattle.nova_admit.specs.TaskPlans.{plan_of};

use crate::fault::AdmitFault;
use crate::flows::patterns_of;
use crate::plans::Pattern;
use nova_workflow::Flow;
use sqlite_items::Items;
use std::alloc::Global;
use std::marker::Model;

/// A workflow whose tasks are admitted, each with its pattern and plan.
#[derive(Drop)]
pub struct Admitted {
    flow: Flow,
    patterns: Items<Pattern>,
}

impl Model for Admitted {
    ghost use Rattle.nova_admit.specs.Flows.{Admission};
    ghost use Rattle.nova_admit.specs.Codes.{admission_code};

    ghost Value = { Admission };

    ghost coded = { admission_code };

    ghost use Rattle.nova_workflow.specs.Whole.{IsFlow};
    ghost use Rattle.nova_admit.specs.Flows.{HavePatterns};

    ghost view = { λ a. record { flow = a.flow; patterns = a.patterns } };

    ghost invariant = { λ a. IsFlow a.flow × HavePatterns a.flow a.flow.tasks a.patterns };
}

impl Admitted {
    /// The workflow.
    pub fn flow(&self) -> &Flow
        ensures flow { result.now ≡ self.now.flow }
        ensures whole { IsFlow self.now.flow }
    {
        &self.flow
    }

    /// The pattern of a task, by its number.
    pub fn pattern(&self, task: u32) -> &Pattern
        requires { task < length self.now.flow.tasks }
        ensures pattern { slice_get self.now.patterns task ≡ Some result.now }
        ensures admitted { (t : Task) → slice_get self.now.flow.tasks task ≡ Some t → spec.HasPattern self.now.flow t result.now }
        ensures schemas { (t : Task) → slice_get self.now.flow.tasks task ≡ Some t → spec.HasSchemas self.now.flow t (plan_of result.now) }
    {
        &self.patterns.as_slice()[task as usize]
    }
}

/// The workflow with its patterns, where each task is admitted; else the fault of the first task
/// that isn't, and of its faults the first.
pub fn admit(alloc: Global, flow: Flow) -> Result<Admitted, AdmitFault>
    requires { IsFlow flow }
    ensures { spec.Admits flow result }
{
    let patterns = patterns_of(alloc, &flow, flow.tasks.as_slice())?;
    Ok(Admitted { flow, patterns })
}
