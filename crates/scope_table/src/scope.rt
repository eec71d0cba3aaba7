// Scopes, with the names that they have.
ghost use Rattle.std.specs.Prelude.{◌≡◌, ◌<◌, ◌^◌, map, length, string_bytes, Some, option_map, IfOk, OnOk, OnErr, if◌then◌else◌};
ghost use Rattle.std.specs.Borrow.{sem};
ghost use Rattle.scope_rules.specs.Table.{symbols_of, is_hidden, scopes_from};
ghost use Rattle.scope_table.specs.Reading.{symbol_named};
ghost use Rattle.scope_table.specs.Group.{at_number};
ghost use Rattle.scope_table.specs.Named.{blank_scope, named, with_name};
ghost use Rattle.scope_table.specs.Editing.{new_scope};
ghost use Rattle.scope_table.specs.Lending.{LendsBits};
ghost use Rattle.scope_table.specs.Refreshing.{with_eval, without_eval};

use crate::ScopeFlags;
use bitflags::Flags;
use indexmap::IndexMap;
use js_syntax::SymbolId;
use scope_context::ScopeSite;
use scope_names::{Declared, First};
use std::alloc::{AllocError, Global};
use std::marker::Model;

/// A scope. Its names stand in the order of their first declarations.
pub struct Scope {
    parent: Option<u32>,
    flags: ScopeFlags,
    bindings: IndexMap<String, SymbolId>,
}

impl Drop for Scope {
    fn drop(self) {
        let Scope {
            parent: _,
            flags: _,
            bindings: _,
        } = self;
    }
}

impl Model for Scope {
    ghost use Rattle.std.specs.Prelude.{map};
    ghost use Rattle.scope_rules.specs.Table.{Scope};
    ghost use Rattle.scope_table.specs.Named.{named};

    ghost Value = { Scope };

    ghost view = { λ s. record { parent = s.parent; flags = s.flags.0; bindings = map named s.bindings.entries } };
}

impl Scope {
    fn blank(alloc: Global, site: &ScopeSite) -> Scope
        ensures { result ≡ blank_scope site.now }
    {
        Scope {
            parent: site.parent(),
            flags: ScopeFlags::from_bits_retain(site.flags()),
            bindings: IndexMap::new(alloc),
        }
    }

    pub(crate) fn unnamed(alloc: Global, parent: Option<u32>, flags: ScopeFlags) -> Scope
        ensures { result ≡ new_scope parent flags.0 }
    {
        Scope {
            parent,
            flags,
            bindings: IndexMap::new(alloc),
        }
    }

    pub(crate) fn parent(&self) -> Option<u32>
        ensures { result ≡ self.now.parent }
    {
        self.parent
    }

    pub(crate) fn flags(&self) -> ScopeFlags
        ensures { result.0 ≡ self.now.flags }
    {
        self.flags
    }

    pub(crate) fn bindings(&self) -> &IndexMap<String, SymbolId>
        ensures { map named result.now.entries ≡ self.now.bindings }
    {
        &self.bindings
    }

    // The symbol of a name that the scope has.
    pub(crate) fn symbol_named(&self, name: &str) -> Option<SymbolId>
        ensures { option_map (λ s. s.0) result ≡ symbol_named name.now self.now.bindings }
    {
        self.bindings.get(name).copied()
    }

    pub(crate) fn set_parent(&mut self, parent: Option<u32>)
        ensures { self.new ≡ record self.old { parent = parent } }
    {
        self.parent = parent;
    }

    pub(crate) fn flags_mut(&mut self) -> &mut ScopeFlags
        ensures* writes_back { sem 𝓛 (LendsBits self.entry result) }
        ensures value { result.now.0 ≡ self.old.flags }
    {
        &mut self.flags
    }

    pub(crate) fn mark_eval(&mut self)
        ensures { self.new ≡ with_eval self.old }
    {
        self.flags.insert(ScopeFlags::DirectEval);
    }

    pub(crate) fn clear_eval(&mut self)
        ensures { self.new ≡ without_eval self.old }
    {
        self.flags.remove(ScopeFlags::DirectEval);
    }

    pub(crate) fn bind(&mut self, name: String, symbol: u32) -> Result<(), AllocError>
        ensures bound { OnOk result (self.new ≡ with_name (string_bytes name) symbol self.old) }
        ensures unchanged { OnErr result (self.new ≡ self.old) }
    {
        self.bindings.insert(name, SymbolId(symbol))?;
        Ok(())
    }
}

fn bind(scopes: &mut Vec<Scope>, scope: u32, name: String, symbol: u32) -> Result<(), AllocError>
    ensures { OnOk result (scopes.new.items ≡ at_number (with_name (string_bytes name) symbol) (Some scope) 0 scopes.old.items) }
{
    let at = scope as usize;
    if at < scopes.len() {
        let scope = &mut scopes[at];
        scope.bind(name, symbol)?;
    }
    Ok(())
}

// Binds a symbol in its scope, unless it is hidden there.
fn bind_symbol<'a>(
    alloc: Global,
    scopes: &mut Vec<Scope>,
    names: &Declared<'_, 'a>,
    symbol: &First<'a>,
    number: u32,
) -> Result<(), AllocError>
    ensures { OnOk result (scopes.new.items
        ≡ (if is_hidden (symbols_of names.now) symbol.now then scopes.old.items else at_number (with_name symbol.now.name number) (Some symbol.now.scope) 0 scopes.old.items)) }
{
    if names.is_hidden(symbol) {
        return Ok(());
    }
    let name = String::from_str(alloc, symbol.name())?;
    bind(scopes, symbol.scope(), name, number)
}

fn blank_scopes(alloc: Global, sites: &[ScopeSite]) -> Result<Vec<Scope>, AllocError>
    ensures { IfOk result (λ v. v.items ≡ map blank_scope sites.now) }
{
    let mut scopes = Vec::new(alloc);
    for site in sites {
        scopes.push(Scope::blank(alloc, site))?;
    }
    Ok(scopes)
}

pub(crate) fn scopes_with(
    alloc: Global,
    names: &Declared,
    sites: &[ScopeSite],
) -> Result<Vec<Scope>, AllocError>
    requires { length (symbols_of names.now) < 2 ^ 32 }
    ensures { IfOk result (λ v. v.items ≡ scopes_from (symbols_of names.now) 0 sites.now) }
{
    let symbols = names.symbols();
    let mut scopes = blank_scopes(alloc, sites)?;
    for (i, symbol) in symbols.iter().enumerate() {
        bind_symbol(alloc, &mut scopes, names, symbol, i as u32)?;
    }
    Ok(scopes)
}
