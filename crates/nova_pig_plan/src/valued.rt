//! Expressions and nodes whose literals are values, as each number and each text of a script is.
//! Each type here keeps that, and so a plan of them has it with no walk over its literals.
ghost use Rattle.std.specs.Prelude.{◌≡◌, ◌++◌, ◌∷◌, [], true, IfOk, OnOk};
ghost use Rattle.nova_pig_algebra.specs.Literals.{is_long, is_text, has_values, all_have_values, node_has_values, nodes_have_values};

use nova_pig_algebra::{Node, PlanExpr};
use nova_pig_tree::Str;
use sqlite_items::{Boxed, Items};
use std::alloc::{AllocError, Global};
use std::marker::Model;

/// A number of the program has 64 bits.
pub(crate) fn number_is_long(n: i64)
    ensures { is_long n ≡ true }
{}

/// A text of the program is within the bounds of text values.
pub(crate) fn text_is_value(text: &Str)
    ensures { is_text text.now ≡ true }
{
    let _bytes = text.bytes();
}

/// An expression.
#[derive(Drop)]
pub struct ValuedExpr {
    expr: Boxed<PlanExpr>,
}

impl Model for ValuedExpr {
    ghost use Rattle.std.specs.Prelude.{◌≡◌, true};
    ghost use Rattle.nova_pig_algebra.specs.declared.node.PlanExpr.{PlanExpr as P};
    ghost use Rattle.nova_pig_algebra.specs.contracts.node.PlanExpr as e;
    ghost use Rattle.nova_pig_algebra.specs.Literals.{has_values};

    ghost Value = { P };

    ghost coded = { e.the_row.coded };

    ghost view = { λ v. v.expr };

    ghost invariant = { λ v. has_values v.expr ≡ true };
}

impl ValuedExpr {
    /// The expression.
    pub fn new(alloc: Global, expr: PlanExpr) -> Result<ValuedExpr, AllocError>
        requires { has_values expr ≡ true }
        ensures { IfOk result (λ v. v ≡ expr) }
    {
        let expr = Boxed::new(alloc, expr)?;
        Ok(ValuedExpr { expr })
    }

    /// The expression, as a part of another.
    pub fn into_boxed(self) -> Boxed<PlanExpr>
        ensures expr { result ≡ self }
        ensures values { has_values result ≡ true }
    {
        self.expr
    }
}

/// Expressions.
#[derive(Drop)]
pub struct ValuedExprs {
    exprs: Items<PlanExpr>,
}

impl Model for ValuedExprs {
    ghost use Rattle.std.specs.Prelude.{◌≡◌, true, List};
    ghost use Rattle.std.specs.Coded.{coded_list};
    ghost use Rattle.nova_pig_algebra.specs.declared.node.PlanExpr.{PlanExpr as P};
    ghost use Rattle.nova_pig_algebra.specs.contracts.node.PlanExpr as e;
    ghost use Rattle.nova_pig_algebra.specs.Literals.{all_have_values};

    ghost Value = { List P };

    ghost coded = { coded_list e.the_row.coded };

    ghost view = { λ v. v.exprs };

    ghost invariant = { λ v. all_have_values v.exprs ≡ true };
}

impl ValuedExprs {
    /// No expression.
    pub fn new(alloc: Global) -> ValuedExprs
        ensures { result ≡ [] }
    {
        ValuedExprs {
            exprs: Items::new(alloc),
        }
    }

    /// One expression more.
    #[tactic(auto, using(crate::proofs::Literals::all_pushed))]
    pub fn push(&mut self, expr: PlanExpr) -> Result<(), AllocError>
        requires { has_values expr ≡ true }
        ensures { OnOk result (self.new ≡ self.old ++ expr ∷ []) }
    {
        self.exprs.push(expr)?;
        Ok(())
    }

    /// The expressions.
    pub fn into_items(self) -> Items<PlanExpr>
        ensures exprs { result ≡ self }
        ensures values { all_have_values result ≡ true }
    {
        self.exprs
    }
}

/// A node.
#[derive(Drop)]
pub struct ValuedNode {
    node: Node,
}

impl Model for ValuedNode {
    ghost use Rattle.std.specs.Prelude.{◌≡◌, true};
    ghost use Rattle.nova_pig_algebra.specs.declared.node.Node.{Node as N};
    ghost use Rattle.nova_pig_algebra.specs.contracts.node.Node as n;
    ghost use Rattle.nova_pig_algebra.specs.Literals.{node_has_values};

    ghost Value = { N };

    ghost coded = { n.the_row.coded };

    ghost view = { λ v. v.node };

    ghost invariant = { λ v. node_has_values v.node ≡ true };
}

impl ValuedNode {
    /// The node.
    pub fn new(node: Node) -> ValuedNode
        requires { node_has_values node ≡ true }
        ensures { result ≡ node }
    {
        ValuedNode { node }
    }

    /// The node, as one of a plan.
    pub fn into_node(self) -> Node
        ensures node { result ≡ self }
        ensures values { node_has_values result ≡ true }
    {
        self.node
    }
}

/// Nodes.
#[derive(Drop)]
pub struct ValuedNodes {
    nodes: Items<Node>,
}

impl Model for ValuedNodes {
    ghost use Rattle.std.specs.Prelude.{◌≡◌, true, List};
    ghost use Rattle.std.specs.Coded.{coded_list};
    ghost use Rattle.nova_pig_algebra.specs.declared.node.Node.{Node as N};
    ghost use Rattle.nova_pig_algebra.specs.contracts.node.Node as n;
    ghost use Rattle.nova_pig_algebra.specs.Literals.{nodes_have_values};

    ghost Value = { List N };

    ghost coded = { coded_list n.the_row.coded };

    ghost view = { λ v. v.nodes };

    ghost invariant = { λ v. nodes_have_values v.nodes ≡ true };
}

impl ValuedNodes {
    /// No node.
    pub fn new(alloc: Global) -> ValuedNodes
        ensures { result ≡ [] }
    {
        ValuedNodes {
            nodes: Items::new(alloc),
        }
    }

    /// One node more.
    #[tactic(auto, using(crate::proofs::Literals::nodes_pushed))]
    pub fn push(&mut self, node: ValuedNode) -> Result<(), AllocError>
        ensures { OnOk result (self.new ≡ self.old ++ node ∷ []) }
    {
        self.nodes.push(node.into_node())?;
        Ok(())
    }

    /// The nodes.
    pub fn into_items(self) -> Items<Node>
        ensures nodes { result ≡ self }
        ensures values { nodes_have_values result ≡ true }
    {
        self.nodes
    }
}
