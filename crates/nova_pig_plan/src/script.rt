//! The plan of a script.
ghost use Rattle.std.specs.Prelude.{◌≡◌, ◌≤◌, ◌<◌, ◌+◌, List, length, None, Ok, OnOk};
ghost use Rattle.nova_pig_tree.specs.declared.statement.TheConstants.{MAX_STATEMENTS};
ghost use Rattle.nova_pig_tree.specs.declared.statement.Statement.{Statement};
ghost use Rattle.nova_pig_plan.specs.declared.scope.Channels.{Channels};
ghost use Rattle.nova_pig_plan.specs.declared.scope.Graph.{Graph};
ghost use Rattle.nova_pig_plan.specs.Kinded.{IsKinded};
ghost use Rattle.nova_pig_plan.specs.Answers.{AnswersAs, AnswersBy, first};
ghost use Rattle.nova_pig_plan.specs.Plans as spec;

use crate::aliases::Aliases;
use crate::fault::{Cause, FaultAt, Stop};
use crate::joins::{join, load, store, union};
use crate::scope::{Channels, Defined, Graph};
use crate::statements::{distinct, filter_rows, foreach, group};
use crate::valued::ValuedNodes;
use nova_pig_tree::{Body, Op, Statement};
use std::alloc::Global;

/// What an operator defines, or its first fault.
fn op_of<'a>(
    alloc: Global,
    channels: &'a Channels,
    done: &Aliases<'a>,
    op: &'a Op,
) -> Result<Defined<'a>, Stop>
    ensures { AnswersAs result (spec.op_of channels.now done.now op.now) }
{
    match op {
        Op::Load { channel } => load(alloc, channels, channel.bytes()),
        Op::Filter { from, cond } => filter_rows(alloc, done, from.bytes(), cond),
        Op::Foreach { from, items } => foreach(alloc, done, from.bytes(), items.as_slice()),
        Op::Group { from, by } => group(alloc, done, from.bytes(), by.as_slice()),
        Op::Join {
            left,
            left_by,
            right,
            right_by,
        } => join(
            alloc,
            done,
            left.bytes(),
            left_by.as_slice(),
            right.bytes(),
            right_by.as_slice(),
        ),
        Op::Union { arms } => union(alloc, done, arms.as_slice()),
        Op::Distinct { from } => distinct(alloc, done, from.bytes()),
    }
}

/// What a statement defines: AliasTwice comes before the faults of the operator.
fn define<'a>(
    alloc: Global,
    channels: &'a Channels,
    done: &Aliases<'a>,
    alias: &[u8],
    op: &'a Op,
) -> Result<Defined<'a>, Stop>
    ensures gives { AnswersAs result (spec.define channels.now done.now alias.now op.now) }
    ensures fresh { OnOk result (spec.find alias.now 0 done.now ≡ None) }
{
    match done.find(alias) {
        Some(_) => Err(Stop::Fault(Cause::AliasTwice)),
        None => op_of(alloc, channels, done, op),
    }
}

/// Adds what a statement defines.
fn add<'a>(
    alloc: Global,
    channels: &'a Channels,
    done: &mut Aliases<'a>,
    nodes: &mut ValuedNodes,
    alias: &'a [u8],
    op: &'a Op,
) -> Result<(), Stop>
    requires { length done.old < MAX_STATEMENTS }
    ensures adds { AnswersBy {B = spec.State} (λ _. (done.new, nodes.new)) result (first (spec.define channels.now done.old alias.now op.now) (spec.and_defined done.old nodes.old alias.now)) }
    ensures one { OnOk result (length done.new ≡ length done.old + 1) }
{
    let defined = define(alloc, channels, done, alias, op)?;
    nodes.push(defined.node)?;
    done.add(alias, defined.scope)?;
    Ok(())
}

/// The fault of the statement with this number.
fn at_statement(stop: Stop, statement: u32) -> FaultAt
    ensures { result ≡ spec.placed stop statement }
{
    match stop {
        Stop::Fault(cause) => FaultAt::At { cause, statement },
        Stop::NoMemory => FaultAt::NoMemory,
    }
}

/// The nodes of the statements, or the first fault.
pub(crate) fn resolve_nodes<'a>(
    alloc: Global,
    script: &'a [Statement],
    channels: &'a Channels,
) -> Result<Graph, FaultAt>
    requires { length script.now ≤ MAX_STATEMENTS }
    ensures { spec.GivesGraph result (spec.graph_of script.now channels.now) }
{
    let mut done = Aliases::new(alloc);
    let mut nodes = ValuedNodes::new(alloc);
    for (at, statement) in script.iter().enumerate() {
        let number = at as u32 + 1;
        match &statement.body {
            Body::Define { alias, op } => {
                match add(alloc, channels, &mut done, &mut nodes, alias.bytes(), op) {
                    Ok(()) => {}
                    Err(stop) => return Err(at_statement(stop, number)),
                }
            }
            Body::Store { alias, channel } => {
                return match store(alloc, channels, &done, alias.bytes(), channel.bytes()) {
                    Ok(stored) => Ok(Graph { nodes, stored }),
                    Err(stop) => Err(at_statement(stop, number)),
                };
            }
        }
    }
    Err(FaultAt::At {
        cause: Cause::NoStore,
        statement: script.len() as u32 + 1,
    })
}

/// Nodes that are answered have kinds.
pub(crate) fn graphs_have_kinds()
    ensures { (ss : List Statement) (ch : Channels) (g : Graph) → spec.graph_of ss ch ≡ Ok g → IsKinded ch g }
{}
