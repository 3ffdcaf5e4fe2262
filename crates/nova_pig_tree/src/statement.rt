//! Statements, and the script that they make.

ghost use Rattle.std.specs.Prelude.{◌≡◌};
ghost use Rattle.nova_pig_tree.specs.Size as size;

use crate::expression::{Expr, Field};
use nova_value::{Kind, Str};
use sqlite_items::Items;
use std::marker::Model;

/// The most statements of a script: a definition for each of 256 aliases, and a STORE.
pub const MAX_STATEMENTS: usize = 257;

/// The most operators of an expression of a script: it is no deeper.
pub const MAX_OPERATORS: usize = 64;

/// The most fields of a BY list: the text of a script has no more bytes.
pub const MAX_FIELDS: usize = 65_536;

/// An item of `GENERATE`.
#[derive(Drop)]
pub enum Item {
    /// `*`.
    All,
    /// `FLATTEN(group)`.
    Flatten,
    /// An expression, with the name and the kind after `AS` where they stand.
    Value {
        expr: Expr,
        name: Option<Str>,
        kind: Option<Kind>,
    },
}

/// The operator that defines an alias. A `from`, `left`, `right` or arm names an alias.
#[derive(Drop)]
pub enum Op {
    Load {
        channel: Str,
    },
    Filter {
        from: Str,
        cond: Expr,
    },
    Foreach {
        from: Str,
        items: Items<Item>,
    },
    Group {
        from: Str,
        by: Items<Field>,
    },
    Join {
        left: Str,
        left_by: Items<Field>,
        right: Str,
        right_by: Items<Field>,
    },
    /// Two arms at least.
    Union {
        arms: Items<Str>,
    },
    Distinct {
        from: Str,
    },
}

/// What a statement says.
#[derive(Drop)]
pub enum Body {
    /// `alias = op;`.
    Define { alias: Str, op: Op },
    /// `STORE alias INTO 'channel';`.
    Store { alias: Str, channel: Str },
}

/// A statement, with the byte places in the text where its first token begins and its last one,
/// the `;`, ends.
#[derive(Drop)]
pub struct Statement {
    pub start: u64,
    pub end: u64,
    pub body: Body,
}

/// A script, seen as the list of its statements. These are few, and so are the operators of each
/// of their expressions and the fields of each BY list: no descent into one is deep, and 32 bits
/// number each place in it.
#[derive(Drop)]
pub struct Script {
    items: Items<Statement>,
}

impl Model for Script {
    ghost use Rattle.std.specs.Prelude.{List};
    ghost use Rattle.nova_pig_tree.specs.declared.statement.Statement.{Statement as S};
    ghost use Rattle.nova_pig_tree.specs.contracts.expression.Expr as e;
    ghost use Rattle.nova_pig_tree.specs.Size.{IsSmall};
    ghost use Rattle.std.specs.Coded.{codes};

    ghost Value = { List S };

    ghost coded = { Prim.hlevel (codes, e.the_row.coded) };

    ghost view = { λ s. s.items };

    ghost invariant = { λ s. IsSmall s.items };
}

impl Script {
    /// A script of some statements.
    pub fn new(items: Items<Statement>) -> Script
        requires { size.IsSmall items }
        ensures { result ≡ items }
    {
        Script { items }
    }

    /// The statements, in the order of the text.
    pub fn statements(&self) -> &[Statement]
        ensures items { result.now ≡ self.now }
        ensures small { size.IsSmall self.now }
    {
        self.items.as_slice()
    }
}
