// The whole table.
ghost use Rattle.std.specs.Prelude.{◌≡◌, ◌<◌, ◌^◌, length, is_some, IfOk};
ghost use Rattle.std.specs.List.{count_by, sum_by};
ghost use Rattle.scope_rules.specs.Binding.{resolved};
ghost use Rattle.scope_rules.specs.Table.{scoping_of, symbols_declared};

use crate::reference::{Reference, references_of};
use crate::scope::{Scope, scopes_with};
use crate::symbol::{Symbol, symbols_with};
use crate::unresolved::{Unresolved, unresolved_of};
use scope_context::Found;
use scope_names::Declared;
use std::alloc::{AllocError, Global};
use std::marker::Model;

/// The scopes, symbols and references of a tree. A number names each: how many stand before it.
pub struct Scoping {
    pub(crate) scopes: Vec<Scope>,
    pub(crate) symbols: Vec<Symbol>,
    pub(crate) references: Vec<Reference>,
    pub(crate) unresolved: Vec<Unresolved>,
}

impl Drop for Scoping {
    fn drop(self) {
        let Scoping {
            scopes: _,
            symbols: _,
            references: _,
            unresolved: _,
        } = self;
    }
}

impl Model for Scoping {
    ghost use Rattle.std.specs.Prelude.{◌<◌, ◌^◌, length, map};
    ghost use Rattle.scope_rules.specs.Table.{Scoping};
    ghost use Rattle.scope_table.specs.Kept.{told};

    ghost Value = { Scoping };

    ghost view = { λ s. record { scopes = s.scopes.items; symbols = map told s.symbols.items; references = s.references.items; unresolved = s.unresolved.items } };

    ghost invariant = { λ s. (length s.symbols.items < 2 ^ 32) × (length s.references.items < 2 ^ 32) };
}

/// What is made of what a walk has found: the scoping, and the symbol of each declaration, in order.
#[derive(Drop)]
pub struct Scoped {
    pub scoping: Scoping,
    pub symbols: Vec<u32>,
}

// The table of what a walk has found, by its declarations.
fn scoping_with<'a>(
    alloc: Global,
    names: &Declared<'_, 'a>,
    found: &Found<'a>,
) -> Result<Scoping, AllocError>
    requires names { names.now ≡ found.now.bindings }
    requires few_bindings { length found.now.bindings < 2 ^ 32 }
    requires few_references { length found.now.references < 2 ^ 32 }
    ensures scoping { IfOk result (λ s. s ≡ scoping_of found.now) }
    ensures listed { IfOk result (λ s. sum_by (λ x. length x.references) s.symbols ≡ count_by (λ r. is_some r.symbol) s.references) }
    ensures resolved { IfOk result (λ s. count_by (λ r. is_some r.symbol) s.references ≡ resolved found.now.bindings found.now.references) }
{
    let (references, unbound) = references_of(alloc, names, found.references())?;
    let scoping = Scoping {
        scopes: scopes_with(alloc, names, found.scopes())?,
        symbols: symbols_with(alloc, names, &references)?,
        references,
        unresolved: unresolved_of(alloc, &unbound)?,
    };
    Ok(scoping)
}

/// The table of what a walk has found.
pub fn table(alloc: Global, found: &Found) -> Result<Scoped, AllocError>
    requires few_bindings { length found.now.bindings < 2 ^ 32 }
    requires few_references { length found.now.references < 2 ^ 32 }
    ensures scoping { IfOk result (λ t. t.scoping ≡ scoping_of found.now) }
    ensures symbols { IfOk result (λ t. t.symbols.items ≡ symbols_declared found.now.bindings) }
    ensures listed { IfOk result (λ t. sum_by (λ s. length s.references) t.scoping.symbols ≡ count_by (λ r. is_some r.symbol) t.scoping.references) }
    ensures resolved { IfOk result (λ t. count_by (λ r. is_some r.symbol) t.scoping.references ≡ resolved found.now.bindings found.now.references) }
{
    let names = Declared::new(alloc, found.bindings())?;
    let symbols = names.symbols_declared(alloc)?;
    let scoping = scoping_with(alloc, &names, found)?;
    Ok(Scoped { scoping, symbols })
}
