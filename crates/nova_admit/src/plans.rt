//! Plans that have the shape of their task's pattern.
ghost use Rattle.std.specs.Prelude.{◌≡◌, IfOk};
ghost use Rattle.nova_pig_algebra.specs.Plan.{IsPlan, tree_of_plan};
ghost use Rattle.nova_pig_pattern.specs.OutputKey.{HasOutputKey};
ghost use Rattle.nova_pig_pattern.specs.Statements.{HasShape};
ghost use Rattle.nova_admit.specs.TaskPlans as spec;

use crate::task::admission;
use nova_pig_algebra::Plan;
use nova_pig_pattern::{Input, PatternKind, TaskFault, patterns_have_shapes};
use nova_value::Schema;
use std::alloc::{AllocError, Global};
use std::marker::Model;

/// A plan that goes row by row: stateless, or made by lookups from its main input. It is seen as
/// the plan.
#[derive(Drop)]
pub struct RowPlan {
    plan: Plan,
}

impl Model for RowPlan {
    ghost use Rattle.nova_pig_algebra.specs.Plan.{Plan as P};
    ghost use Rattle.nova_pig_algebra.specs.Codes.{plan_code};

    ghost Value = { P };

    ghost coded = { plan_code };

    ghost use Rattle.nova_admit.specs.Shaped.{IsRowPlan};

    ghost view = { λ r. r.plan };

    ghost invariant = { λ r. IsRowPlan r.plan };
}

impl RowPlan {
    /// The plan.
    pub fn plan(&self) -> &Plan
        ensures plan { result.now ≡ self.now }
        ensures shape { spec.IsRowPlan self.now }
    {
        &self.plan
    }

    /// The schemas of its inputs.
    pub fn inputs(&self) -> &[Schema]
        ensures { result.now ≡ self.now.inputs }
    {
        self.plan.inputs()
    }

    /// The schema of its output.
    pub fn output(&self) -> &Schema
        ensures { result.now ≡ self.now.output }
    {
        self.plan.output()
    }
}

/// A plan that goes by groups. It is seen as the plan.
#[derive(Drop)]
pub struct GroupPlan {
    plan: Plan,
}

impl Model for GroupPlan {
    ghost use Rattle.nova_pig_algebra.specs.Plan.{Plan as P};
    ghost use Rattle.nova_pig_algebra.specs.Codes.{plan_code};

    ghost Value = { P };

    ghost coded = { plan_code };

    ghost use Rattle.nova_admit.specs.Shaped.{IsGroupPlan};

    ghost view = { λ g. g.plan };

    ghost invariant = { λ g. IsGroupPlan g.plan };
}

impl GroupPlan {
    /// The plan.
    pub fn plan(&self) -> &Plan
        ensures plan { result.now ≡ self.now }
        ensures shape { spec.IsGroupPlan self.now }
    {
        &self.plan
    }

    /// The schemas of its inputs.
    pub fn inputs(&self) -> &[Schema]
        ensures { result.now ≡ self.now.inputs }
    {
        self.plan.inputs()
    }

    /// The schema of its output.
    pub fn output(&self) -> &Schema
        ensures { result.now ≡ self.now.output }
    {
        self.plan.output()
    }
}

/// The pattern of a task, with its plan.
#[derive(Drop)]
pub enum Pattern {
    N(Plan),
    S(RowPlan),
    L(RowPlan),
    F(GroupPlan),
}

/// The plan, kept as its pattern wants it.
fn with_plan(plan: Plan, kind: PatternKind) -> Pattern
    requires key { HasOutputKey plan }
    requires shape { HasShape plan.inputs kind (tree_of_plan plan) }
    ensures plan { spec.plan_of result ≡ plan }
    ensures kind { spec.kind_of result ≡ kind }
    ensures key { HasOutputKey (spec.plan_of result) }
{
    match kind {
        PatternKind::NonIncremental => Pattern::N(plan),
        PatternKind::Stateless => Pattern::S(RowPlan { plan }),
        PatternKind::Lookup => Pattern::L(RowPlan { plan }),
        PatternKind::Stateful => Pattern::F(GroupPlan { plan }),
    }
}

/// The pattern of a task, with its plan; or its first fault.
pub fn admit_task(
    alloc: Global,
    plan: Plan,
    inputs: &[Input],
    based: bool,
) -> Result<Result<Pattern, TaskFault>, AllocError>
    ensures { IfOk result (spec.Admits plan inputs.now based) }
{
    let answer = admission(
        alloc,
        plan.inputs(),
        inputs,
        based,
        plan.output().key(),
        plan.nodes(),
        plan.stored(),
        plan.key(),
    )?;
    patterns_have_shapes();
    match answer {
        Ok(kind) => {
            let pattern = with_plan(plan, kind);
            Ok(Ok(pattern))
        }
        Err(fault) => Ok(Err(fault)),
    }
}
