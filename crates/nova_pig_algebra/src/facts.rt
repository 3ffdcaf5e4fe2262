//! What is known of an alias.
ghost use Rattle.std.specs.Prelude.{◌≡◌, IfOk};
ghost use Rattle.std.specs.Ordering.{eq_by_cmp};
ghost use Rattle.nova_value.specs.Order.{value_cmp};
ghost use Rattle.nova_value.specs.declared.value.Value.TheVariants as v;

use nova_value::{Str, Value};
use sqlite_items::Items;
use std::alloc::{AllocError, Global};
use std::marker::Model;

/// A number, or a text where it stands.
#[derive(Clone, Copy)]
enum Lent<'a> {
    Long(i64),
    Text(&'a Str),
}

/// The value of a constant column. Its text stands in the plan and isn't copied.
#[derive(Drop)]
pub struct Constant<'a> {
    lent: Lent<'a>,
}

impl<'a> Model for Constant<'a> {
    ghost use Rattle.nova_value.specs.declared.value.Value.{Value as V};
    ghost use Rattle.nova_pig_algebra.specs.Lent.{lent_value};

    ghost Value = { V };

    ghost view = { λ c. lent_value c.lent };
}

impl<'a> Constant<'a> {
    /// A number.
    pub(crate) fn long(n: i64) -> Constant<'a>
        ensures { result ≡ v.Long n }
    {
        Constant {
            lent: Lent::Long(n),
        }
    }

    /// A text.
    pub(crate) fn text(text: &'a Str) -> Constant<'a>
        ensures { result ≡ v.Text text.now }
    {
        Constant {
            lent: Lent::Text(text),
        }
    }

    /// The same value.
    pub fn again(&self) -> Constant<'a>
        ensures { result ≡ self.now }
    {
        Constant { lent: self.lent }
    }

    /// The value, with memory of its own.
    pub fn value(&self, alloc: Global) -> Result<Value, AllocError>
        ensures { IfOk result (λ v. v ≡ self.now) }
    {
        match self.lent {
            Lent::Long(n) => Ok(Value::Long(n)),
            Lent::Text(text) => Ok(Value::Text(text.copy(alloc)?)),
        }
    }

    /// Whether both are one value.
    pub(crate) fn is_same(&self, other: &Constant<'_>) -> bool
        ensures { result ≡ eq_by_cmp value_cmp self.now other.now }
    {
        match self.lent {
            Lent::Long(a) => match other.lent {
                Lent::Long(b) => a.cmp(&b).is_eq(),
                Lent::Text(_) => false,
            },
            Lent::Text(a) => match other.lent {
                Lent::Long(_) => false,
                Lent::Text(b) => a.bytes().cmp(b.bytes()).is_eq(),
            },
        }
    }
}

/// What is known of an alias: for each column the value that it has in every row, where it is
/// constant; and its key columns, rising, if it has a key.
#[derive(Drop)]
pub struct Facts<'a> {
    pub constants: Items<Option<Constant<'a>>>,
    pub key: Option<Items<u32>>,
}
