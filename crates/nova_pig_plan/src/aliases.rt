//! The aliases that are defined, by name and in order.
ghost use Rattle.std.specs.Prelude.{◌≡◌, ◌<◌, ◌+◌, ◌++◌, ◌∷◌, [], length, None, OnOk};
ghost use Rattle.std.specs.Option.{option_map};
ghost use Rattle.nova_pig_tree.specs.declared.statement.TheConstants.{MAX_STATEMENTS};
ghost use Rattle.nova_pig_plan.specs.Plans as spec;

use crate::scope::Scope;
use indexmap::IndexMap;
use std::alloc::{AllocError, Global};
use std::marker::Model;

/// The aliases with their scopes, in the order of their statements: the number of an alias is that
/// of its node. They are no more than a script may have statements.
#[derive(Drop)]
pub struct Aliases<'a> {
    map: IndexMap<&'a [u8], Scope<'a>>,
}

impl<'a> Model for Aliases<'a> {
    ghost use Rattle.std.specs.Prelude.{ℕ, ◌≤◌, List, length, map as each};
    ghost use Rattle.nova_pig_tree.specs.declared.statement.TheConstants.{MAX_STATEMENTS};
    ghost use Rattle.nova_pig_plan.specs.declared.scope.Scope.{Scope as S};

    ghost Value = { List (List ℕ × S) };

    ghost view = { λ a. each (λ e. (e.0.now, e.1)) a.map.entries };

    ghost invariant = { λ a. length a.map.entries ≤ MAX_STATEMENTS };
}

impl<'a> Aliases<'a> {
    /// No alias.
    pub fn new(alloc: Global) -> Aliases<'a>
        ensures { result ≡ [] }
    {
        Aliases {
            map: IndexMap::new(alloc),
        }
    }

    /// The number and the scope of an alias.
    pub fn find(&self, name: &[u8]) -> Option<(u32, &Scope<'a>)>
        ensures { option_map (λ p. (p.0, p.1.now)) result ≡ spec.find name.now 0 self.now }
    {
        let (place, _, scope) = self.map.get_full(name)?;
        Some((place as u32, scope))
    }

    /// One alias more.
    pub fn add(&mut self, name: &'a [u8], scope: Scope<'a>) -> Result<(), AllocError>
        requires fresh { spec.find name.now 0 self.old ≡ None }
        requires room { length self.old < MAX_STATEMENTS }
        ensures { OnOk result (self.new ≡ self.old ++ (name.now, scope.entry) ∷ []) }
    {
        match self.map.insert(name, scope) {
            Ok(_) => Ok(()),
            Err(_) => Err(AllocError),
        }
    }
}
