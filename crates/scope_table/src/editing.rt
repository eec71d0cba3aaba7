// Scopes and symbols that are added, and what is changed of them.
ghost use Rattle.std.specs.Prelude.{◌≡◌, ◌<◌, ◌+◌, ◌^◌, length, option_map, IfSome, IfOk, OnOk, OnErr};
ghost use Rattle.std.specs.Borrow.{sem};
ghost use Rattle.scope_table.specs.Reading.{scope_at};
ghost use Rattle.scope_table.specs.Editing.{with_scope, with_parent, with_binding, with_symbol, IsOutside};
ghost use Rattle.scope_table.specs.Lending.{LendsFlags};

use crate::scope::Scope;
use crate::scoping::Scoping;
use crate::symbol::Symbol;
use crate::{ScopeFlags, SymbolFlags};
use js_syntax::{ScopeId, SymbolId};
use std::alloc::AllocError;

fn scope_number(scope: Option<ScopeId>) -> Option<u32>
    ensures { result ≡ option_map (λ s. s.0) scope }
{
    match scope {
        Some(scope) => Some(scope.0),
        None => None,
    }
}

impl Scoping {
    /// Appends a scope that has no names yet.
    pub fn add_scope(
        &mut self,
        parent: Option<ScopeId>,
        flags: ScopeFlags,
    ) -> Result<ScopeId, AllocError>
        requires few { length self.old.scopes + 1 < 2 ^ 32 }
        requires parent { IfSome parent (λ p. p.0 < length self.old.scopes) }
        ensures id { IfOk result (λ id. id.0 ≡ length self.old.scopes) }
        ensures added { OnOk result (self.new ≡ with_scope (option_map (λ p. p.0) parent) flags.0 self.old) }
        ensures unchanged { OnErr result (self.new ≡ self.old) }
    {
        let id = ScopeId(self.scopes.len() as u32);
        let scope = Scope::unnamed(*self.scopes.allocator(), scope_number(parent), flags);
        self.scopes.push(scope)?;
        Ok(id)
    }

    /// Puts a scope into another, with all that is inside it, or around all others. The other lies outside
    /// of it.
    pub fn set_scope_parent_id(&mut self, scope: ScopeId, parent: Option<ScopeId>)
        requires scope { scope.0 < length self.old.scopes }
        requires parent { IfSome parent (λ p. p.0 < length self.old.scopes) }
        requires outside { IfSome parent (λ p. IsOutside self.old scope.0 p.0) }
        ensures parent { self.new ≡ with_parent scope.0 (option_map (λ p. p.0) parent) self.old }
    {
        let scope = &mut self.scopes[scope.0 as usize];
        scope.set_parent(scope_number(parent));
    }

    /// What a scope is, to be changed.
    pub fn scope_flags_mut(&mut self, scope: ScopeId) -> &mut ScopeFlags
        requires { scope.0 < length self.old.scopes }
        ensures* writes_back { sem 𝓛 (LendsFlags self.entry scope.0 result) }
        ensures value { result.now.0 ≡ (scope_at self.old scope.0).flags }
    {
        let scope = &mut self.scopes[scope.0 as usize];
        scope.flags_mut()
    }

    /// Appends a symbol that nothing refers to and no scope binds yet. The name is copied.
    pub fn create_symbol(
        &mut self,
        name: &str,
        flags: SymbolFlags,
        scope: ScopeId,
    ) -> Result<SymbolId, AllocError>
        requires few { length self.old.symbols + 1 < 2 ^ 32 }
        ensures id { IfOk result (λ id. id.0 ≡ length self.old.symbols) }
        ensures added { OnOk result (self.new ≡ with_symbol name.now flags.0 scope.0 self.old) }
        ensures unchanged { OnErr result (self.new ≡ self.old) }
    {
        let id = SymbolId(self.symbols.len() as u32);
        let symbol = Symbol::undeclared(*self.symbols.allocator(), name, flags, scope.0)?;
        self.symbols.push(symbol)?;
        Ok(id)
    }

    /// Binds a name in a scope to a symbol. A name that is bound there is bound anew, and keeps its place in
    /// the order.
    pub fn add_binding(
        &mut self,
        scope: ScopeId,
        name: &str,
        symbol: SymbolId,
    ) -> Result<(), AllocError>
        requires { scope.0 < length self.old.scopes }
        ensures bound { OnOk result (self.new ≡ with_binding scope.0 name.now symbol.0 self.old) }
        ensures unchanged { OnErr result (self.new ≡ self.old) }
    {
        let name = String::from_str(*self.scopes.allocator(), name)?;
        let scope = &mut self.scopes[scope.0 as usize];
        scope.bind(name, symbol.0)?;
        Ok(())
    }
}
