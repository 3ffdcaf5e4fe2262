//! Plans.
ghost use Rattle.std.specs.Prelude.{◌≡◌, true, IfOk};
ghost use Rattle.std.specs.Option.{option_map};
ghost use Rattle.nova_pig_algebra.specs.Literals.{nodes_have_values};
ghost use Rattle.nova_pig_algebra.specs.Plan as spec;

use crate::known::key_of_nodes;
use crate::node::Node;
use nova_value::Schema;
use sqlite_items::Items;
use std::alloc::{AllocError, Global};
use std::marker::Model;

/// A plan: nodes that name earlier nodes, the number of the stored one, and the schemas of the
/// task's channels. Its references are in range, its kinds are right, and its literals are values.
#[derive(Drop)]
pub struct Plan {
    nodes: Items<Node>,
    stored: u32,
    inputs: Items<Schema>,
    output: Schema,
    key: Option<Items<u32>>,
}

impl Model for Plan {
    ghost use Rattle.std.specs.Prelude.{◌≡◌};
    ghost use Rattle.nova_pig_algebra.specs.Plan.{Plan as P, IsPlan, plan_with, plan_key};
    ghost use Rattle.nova_pig_algebra.specs.Codes.{plan_code};

    ghost Value = { P };

    ghost coded = { plan_code };

    ghost view = { λ p. plan_with p.nodes p.stored p.inputs p.output };

    ghost invariant = { λ p. IsPlan (plan_with p.nodes p.stored p.inputs p.output) × (p.key ≡ plan_key (plan_with p.nodes p.stored p.inputs p.output)) };
}

impl Plan {
    /// The plan of these nodes, whose kinds are right and whose literals are values, with its key.
    pub fn new(
        alloc: Global,
        nodes: Items<Node>,
        stored: u32,
        inputs: Items<Schema>,
        output: Schema,
    ) -> Result<Plan, AllocError>
        requires kinded { spec.IsKinded (spec.plan_with nodes stored inputs output) }
        requires literals { nodes_have_values nodes ≡ true }
        ensures { IfOk result (λ p. p ≡ spec.plan_with nodes stored inputs output) }
    {
        let key = key_of_nodes(alloc, inputs.as_slice(), nodes.as_slice(), stored)?;
        Ok(Plan {
            nodes,
            stored,
            inputs,
            output,
            key,
        })
    }

    /// The nodes. A node's number is its place; each names earlier ones alone.
    pub fn nodes(&self) -> &[Node]
        ensures nodes { result.now ≡ self.now.nodes }
        ensures plan { spec.IsPlan self.now }
    {
        self.nodes.as_slice()
    }

    /// The number of the stored node.
    pub fn stored(&self) -> u32
        ensures { result ≡ self.now.stored }
    {
        self.stored
    }

    /// The schemas of the inputs, in the order of the task.
    pub fn inputs(&self) -> &[Schema]
        ensures { result.now ≡ self.now.inputs }
    {
        self.inputs.as_slice()
    }

    /// The schema of the output.
    pub fn output(&self) -> &Schema
        ensures { result.now ≡ self.now.output }
    {
        &self.output
    }

    /// The key columns, rising, where the plan has a key: no two of its rows are equal at them.
    pub fn key(&self) -> Option<&[u32]>
        ensures { option_map (λ k. k.now) result ≡ spec.plan_key self.now }
    {
        match &self.key {
            Some(key) => Some(key.as_slice()),
            None => None,
        }
    }
}
