//! The plan of a script over the channels of a task.
ghost use Rattle.std.specs.Prelude.{◌≡◌, IfOk};
ghost use Rattle.nova_pig_algebra.specs.Plan.{IsKinded};
ghost use Rattle.nova_pig_plan.specs.Resolve as spec;

use crate::fault::{Cause, FaultAt, PlanFault};
use crate::scope::{Channels, Graph};
use crate::script::resolve_nodes;
use nova_pig_algebra::Plan;
use nova_pig_tree::Script;
use nova_value::{Name, Schema};
use sqlite_items::Items;
use std::alloc::{AllocError, Global};

/// The fault of a cause at a statement.
fn fault_of(cause: Cause, statement: u32) -> PlanFault
    ensures { spec.Means result cause statement }
{
    match cause {
        Cause::UnknownAlias => PlanFault::UnknownAlias { statement },
        Cause::UnknownField => PlanFault::UnknownField { statement },
        Cause::Ambiguous => PlanFault::Ambiguous { statement },
        Cause::WrongType => PlanFault::WrongType { statement },
        Cause::SchemaDiffers => PlanFault::SchemaDiffers { statement },
        Cause::UnknownChannel => PlanFault::UnknownChannel { statement },
        Cause::TooWide => PlanFault::TooWide { statement },
        Cause::BagMisused => PlanFault::BagMisused { statement },
        Cause::NoStore => PlanFault::NoStore { statement },
        Cause::AliasTwice => PlanFault::AliasTwice { statement },
    }
}

/// The fault with its statement's number.
fn numbered(fault: FaultAt) -> PlanFault
    ensures { spec.IsNumbered fault result }
{
    match fault {
        FaultAt::At { cause, statement } => fault_of(cause, statement),
        FaultAt::NoMemory => PlanFault::NoMemory,
    }
}

/// Copies of the schemas.
fn schemas_of(alloc: Global, channels: &[(Name, Schema)]) -> Result<Items<Schema>, AllocError>
    ensures { IfOk result (λ ss. ss ≡ spec.schemas channels.now) }
{
    let mut all = Items::new(alloc);
    for channel in channels {
        all.push(channel.1.copy(alloc)?)?;
    }
    Ok(all)
}

/// The plan of these nodes over these channels.
fn with_schemas(alloc: Global, graph: Graph, channels: &Channels) -> Result<Plan, AllocError>
    requires { IsKinded (spec.plan channels.now graph) }
    ensures { IfOk result (λ p. p ≡ spec.plan channels.now graph) }
{
    let inputs = schemas_of(alloc, channels.inputs.as_slice())?;
    let output = channels.output.1.copy(alloc)?;
    Plan::new(
        alloc,
        graph.nodes.into_items(),
        graph.stored,
        inputs,
        output,
    )
}

/// The plan of a script over the channels of a task, or the first fault. Statements are tested in
/// order; within one AliasTwice comes first, then UnknownAlias of its operands, UnknownChannel,
/// BagMisused of the operands, the faults of its fields, calls and items from left to right, those
/// of JOIN's BY lists, SchemaDiffers, and TooWide.
pub fn resolve(alloc: Global, script: &Script, channels: &Channels) -> Result<Plan, PlanFault>
    ensures { spec.GivesPlan result (spec.plan_of script.now channels.now) }
{
    match resolve_nodes(alloc, script.statements(), channels) {
        Ok(graph) => Ok(with_schemas(alloc, graph, channels)?),
        Err(fault) => Err(numbered(fault)),
    }
}
