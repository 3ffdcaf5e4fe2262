//! What is known of an alias.
ghost use Rattle.std.specs.Prelude.{◌≡◌};

use crate::valued::{ValuedExpr, ValuedExprs, ValuedNode, ValuedNodes};
use nova_pig_algebra::Sort;
use nova_value::{Kind, Name, Schema};
use sqlite_items::Items;
use std::marker::Model;

/// A text where it stands: in the script, in a schema or in the program.
#[derive(Drop)]
pub struct Text<'a> {
    bytes: &'a [u8],
}

impl<'a> Model for Text<'a> {
    ghost use Rattle.std.specs.Prelude.{ℕ, List};

    ghost Value = { List ℕ };

    ghost view = { λ t. t.bytes.now };
}

impl<'a> Text<'a> {
    /// The text of these bytes.
    pub fn new(bytes: &'a [u8]) -> Text<'a>
        ensures { result ≡ bytes.now }
    {
        Text { bytes }
    }

    /// The same text.
    pub fn again(&self) -> Text<'a>
        ensures { result ≡ self.now }
    {
        Text { bytes: self.bytes }
    }

    /// Its bytes.
    pub fn bytes(&self) -> &'a [u8]
        ensures { result.now ≡ self.now }
    {
        self.bytes
    }
}

/// A column of an alias.
#[derive(Drop)]
pub struct ScopeColumn<'a> {
    pub kind: Kind,
    pub name: Option<Text<'a>>,
    pub origin: Option<Text<'a>>,
}

/// The columns of an alias; of a grouped one the name of its bag, its BY columns and the bag's columns.
#[derive(Drop)]
pub enum Scope<'a> {
    Rows {
        columns: Items<ScopeColumn<'a>>,
    },
    Group {
        bag: Text<'a>,
        by: Items<ScopeColumn<'a>>,
        columns: Items<ScopeColumn<'a>>,
    },
}

/// An expression of a plan, and what it gives.
#[derive(Drop)]
pub struct Typed {
    pub expr: ValuedExpr,
    pub sort: Sort,
}

/// The items of a FOREACH: their expressions, and the columns that they make.
#[derive(Drop)]
pub struct Made<'a> {
    pub exprs: ValuedExprs,
    pub columns: Items<ScopeColumn<'a>>,
}

/// What a statement defines.
#[derive(Drop)]
pub struct Defined<'a> {
    pub node: ValuedNode,
    pub scope: Scope<'a>,
}

/// The channels of a task: each with its name and its schema, the inputs in the order of the task.
#[derive(Drop)]
pub struct Channels {
    pub inputs: Items<(Name, Schema)>,
    pub output: (Name, Schema),
}

/// Nodes, and the number of the stored one.
#[derive(Drop)]
pub struct Graph {
    pub nodes: ValuedNodes,
    pub stored: u32,
}
