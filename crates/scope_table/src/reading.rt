// What is read of a scoping.
ghost use Rattle.std.specs.Prelude.{◌≡◌, ◌<◌, ◌^◌, ◌==◌, ◌+◌, ◌++◌, length, map, is_some, option_map, slice_get, IfOk, OnOk};
ghost use Rattle.std.specs.Option.{option_to_list};
ghost use Rattle.std.specs.List.{list_any, count_by, filter_map};
ghost use Rattle.scope_table.specs.Kept.{told};
ghost use Rattle.scope_table.specs.Named.{named};
ghost use Rattle.scope_table.specs.Reading.{scope_at, symbol_at, reference_at, is_write, ancestors, scopes_up, binding_of, pure_from, symbol_named};

use crate::reference::Reference;
use crate::scope::Scope;
use crate::scoping::Scoping;
use crate::symbol::{Redeclaration, Symbol};
use crate::unresolved::Unresolved;
use crate::{ScopeFlags, SymbolFlags};
use indexmap::IndexMap;
use js_syntax::{ReferenceId, ScopeId, SymbolId};
use std::alloc::{AllocError, Global};

fn names_of<'s>(alloc: Global, symbols: &'s [Symbol]) -> Result<Vec<&'s str>, AllocError>
    ensures { IfOk result (λ v. map (λ s. s.now) v.items ≡ map (λ s. s.name) (map told symbols.now)) }
{
    let mut names = Vec::new(alloc);
    for symbol in symbols {
        names.push(symbol.name())?;
    }
    Ok(names)
}

fn pure_among(alloc: Global, symbols: &[Symbol]) -> Result<Vec<SymbolId>, AllocError>
    requires { length symbols.now < 2 ^ 32 }
    ensures { IfOk result (λ v. map (λ s. s.0) v.items ≡ pure_from 0 (map told symbols.now)) }
{
    let mut found = Vec::new(alloc);
    for (i, symbol) in symbols.iter().enumerate() {
        if symbol.is_pure() {
            found.push(SymbolId(i as u32))?;
        }
    }
    Ok(found)
}

fn add_reference<'s>(
    references: &'s [Reference],
    id: ReferenceId,
    found: &mut Vec<&'s Reference>,
) -> Result<(), AllocError>
    ensures { OnOk result (map (λ r. r.now) found.new.items ≡ map (λ r. r.now) found.old.items ++ option_to_list (slice_get references.now id.0)) }
{
    let at = id.0 as usize;
    if at < references.len() {
        found.push(&references[at])?;
    }
    Ok(())
}

fn references_among<'s>(
    alloc: Global,
    references: &'s [Reference],
    ids: &[ReferenceId],
) -> Result<Vec<&'s Reference>, AllocError>
    ensures { IfOk result (λ v. map (λ r. r.now) v.items ≡ filter_map (λ r. slice_get references.now r) (map (λ r. r.0) ids.now)) }
{
    let mut found = Vec::new(alloc);
    for id in ids {
        add_reference(references, *id, &mut found)?;
    }
    Ok(found)
}

fn resolved_among(references: &[Reference]) -> u64
    ensures { result ≡ count_by (λ r. is_some r.symbol) references.now }
{
    references.iter().filter(|r| r.symbol().is_some()).count() as u64
}

impl Scoping {
    fn scope(&self, scope: ScopeId) -> &Scope
        requires { scope.0 < length self.now.scopes }
        ensures { result.now ≡ scope_at self.now scope.0 }
    {
        &self.scopes[scope.0 as usize]
    }

    fn symbol(&self, symbol: SymbolId) -> &Symbol
        requires { symbol.0 < length self.now.symbols }
        ensures { told result.now ≡ symbol_at self.now symbol.0 }
    {
        &self.symbols[symbol.0 as usize]
    }

    // ---- scopes

    /// How many scopes there are.
    pub fn scopes_len(&self) -> usize
        ensures len { result ≡ length self.now.scopes }
    {
        self.scopes.len()
    }

    /// The scope of the program, which is the first.
    pub fn root_scope_id(&self) -> ScopeId
        ensures id { result.0 ≡ 0 }
    {
        ScopeId(0)
    }

    /// What the program's scope is.
    pub fn root_scope_flags(&self) -> ScopeFlags
        requires { 0 < length self.now.scopes }
        ensures flags { result.0 ≡ (scope_at self.now 0).flags }
    {
        self.scope_flags(ScopeId(0))
    }

    /// What a scope is.
    pub fn scope_flags(&self, scope: ScopeId) -> ScopeFlags
        requires { scope.0 < length self.now.scopes }
        ensures flags { result.0 ≡ (scope_at self.now scope.0).flags }
    {
        self.scope(scope).flags()
    }

    // The number of the scope around one.
    pub(crate) fn parent_of(&self, scope: u32) -> Option<u32>
        ensures { result ≡ (scope_at self.now scope).parent }
    {
        match self.scopes.get(scope as usize) {
            Some(scope) => scope.parent(),
            None => None,
        }
    }

    /// The scope around one, which the program's lacks.
    pub fn scope_parent_id(&self, scope: ScopeId) -> Option<ScopeId>
        requires { scope.0 < length self.now.scopes }
        ensures parent { option_map (λ p. p.0) result ≡ (scope_at self.now scope.0).parent }
    {
        match self.parent_of(scope.0) {
            Some(parent) => Some(ScopeId(parent)),
            None => None,
        }
    }

    /// The names of a scope with their symbols, in the order of their first declarations.
    pub fn get_bindings(&self, scope: ScopeId) -> &IndexMap<String, SymbolId>
        requires { scope.0 < length self.now.scopes }
        ensures bindings { map named result.now.entries ≡ (scope_at self.now scope.0).bindings }
    {
        self.scope(scope).bindings()
    }

    /// A scope, the one around it and so on up to the program's.
    pub fn scope_ancestors(&self, alloc: Global, scope: ScopeId) -> Result<Vec<ScopeId>, AllocError>
        requires { scope.0 < length self.now.scopes }
        ensures ancestors { IfOk result (λ v. map (λ s. s.0) v.items ≡ ancestors self.now scope.0) }
    {
        let mut above = Vec::new(alloc);
        let mut next = Some(scope.0);
        for _i in 0..self.scopes_len() {
            let Some(at) = next else {
                return Ok(above);
            };
            above.push(ScopeId(at))?;
            next = self.parent_of(at);
        }
        Ok(above)
    }

    fn symbol_in(&self, scope: u32, name: &str) -> Option<SymbolId>
        ensures { option_map (λ s. s.0) result ≡ symbol_named name.now (scope_at self.now scope).bindings }
    {
        match self.scopes.get(scope as usize) {
            Some(scope) => scope.symbol_named(name),
            None => None,
        }
    }

    /// The symbol of a name in a scope: that of the innermost scope, from this one up, that has the name.
    pub fn find_binding(&self, scope: ScopeId, name: &str) -> Option<SymbolId>
        requires { scope.0 < length self.now.scopes }
        ensures binding { option_map (λ s. s.0) result ≡ binding_of self.now scope.0 name.now }
    {
        let mut next = Some(scope.0);
        let most = self.scopes_len();
        for _i in 0..most {
            let Some(at) = next else {
                return None;
            };
            if let Some(symbol) = self.symbol_in(at, name) {
                return Some(symbol);
            }
            next = self.parent_of(at);
        }
        None
    }

    // ---- symbols

    /// How many symbols there are.
    pub fn symbols_len(&self) -> usize
        ensures len { result ≡ length self.now.symbols }
        ensures small { result < 2 ^ 32 }
    {
        self.symbols.len()
    }

    /// The name of a symbol.
    pub fn symbol_name(&self, symbol: SymbolId) -> &str
        requires { symbol.0 < length self.now.symbols }
        ensures name { result.now ≡ (symbol_at self.now symbol.0).name }
    {
        self.symbol(symbol).name()
    }

    /// The names of all symbols, in order.
    pub fn symbol_names(&self, alloc: Global) -> Result<Vec<&str>, AllocError>
        ensures names { IfOk result (λ v. map (λ s. s.now) v.items ≡ map (λ s. s.name) self.now.symbols) }
    {
        names_of(alloc, &self.symbols)
    }

    /// How a symbol is declared: the bits of all its declarations together.
    pub fn symbol_flags(&self, symbol: SymbolId) -> SymbolFlags
        requires { symbol.0 < length self.now.symbols }
        ensures flags { result.0 ≡ (symbol_at self.now symbol.0).flags }
    {
        self.symbol(symbol).flags()
    }

    /// The scope that a symbol is declared in.
    pub fn symbol_scope_id(&self, symbol: SymbolId) -> ScopeId
        requires { symbol.0 < length self.now.symbols }
        ensures scope { result.0 ≡ (symbol_at self.now symbol.0).scope }
    {
        self.symbol(symbol).scope()
    }

    /// All declarations of a symbol, where there is more than one.
    pub fn symbol_redeclarations(&self, symbol: SymbolId) -> &[Redeclaration]
        requires { symbol.0 < length self.now.symbols }
        ensures redeclarations { result.now ≡ (symbol_at self.now symbol.0).redeclarations }
    {
        self.symbol(symbol).redeclarations()
    }

    /// Whether nothing refers to a symbol.
    pub fn symbol_is_unused(&self, symbol: SymbolId) -> bool
        requires { symbol.0 < length self.now.symbols }
        ensures unused { result ≡ (length (symbol_at self.now symbol.0).references == 0) }
    {
        self.get_resolved_reference_ids(symbol).is_empty()
    }

    /// Whether a reference writes to a symbol.
    pub fn symbol_is_mutated(&self, symbol: SymbolId) -> bool
        requires { symbol.0 < length self.now.symbols }
        ensures mutated { result ≡ list_any (λ r. is_write (reference_at self.now r)) (symbol_at self.now symbol.0).references }
    {
        for reference in self.get_resolved_reference_ids(symbol) {
            if self.writes(*reference) {
                return true;
            }
        }
        false
    }

    /// Whether a symbol's only declaration is that of a function that is marked to have no side effects.
    pub fn symbol_has_no_side_effects(&self, symbol: SymbolId) -> bool
        requires { symbol.0 < length self.now.symbols }
        ensures is_pure { result ≡ (symbol_at self.now symbol.0).is_pure }
    {
        self.symbol(symbol).is_pure()
    }

    /// The symbols whose only declaration is such a function's, in order.
    pub fn no_side_effects(&self, alloc: Global) -> Result<Vec<SymbolId>, AllocError>
        ensures symbols { IfOk result (λ v. map (λ s. s.0) v.items ≡ pure_from 0 self.now.symbols) }
    {
        pure_among(alloc, &self.symbols)
    }

    // ---- references

    /// How many references there are.
    pub fn references_len(&self) -> usize
        ensures len { result ≡ length self.now.references }
        ensures small { result < 2 ^ 32 }
    {
        self.references.len()
    }

    /// A reference.
    pub fn get_reference(&self, reference: ReferenceId) -> &Reference
        requires { reference.0 < length self.now.references }
        ensures reference { result.now ≡ reference_at self.now reference.0 }
    {
        &self.references[reference.0 as usize]
    }

    fn writes(&self, reference: ReferenceId) -> bool
        ensures { result ≡ is_write (reference_at self.now reference.0) }
    {
        match self.references.get(reference.0 as usize) {
            Some(reference) => reference.is_write(),
            None => false,
        }
    }

    /// The references to a symbol, in order.
    pub fn get_resolved_reference_ids(&self, symbol: SymbolId) -> &[ReferenceId]
        requires { symbol.0 < length self.now.symbols }
        ensures references { map (λ r. r.0) result.now ≡ (symbol_at self.now symbol.0).references }
    {
        self.symbol(symbol).references()
    }

    /// The references to a symbol themselves, in order.
    pub fn get_resolved_references(
        &self,
        alloc: Global,
        symbol: SymbolId,
    ) -> Result<Vec<&Reference>, AllocError>
        requires { symbol.0 < length self.now.symbols }
        ensures references { IfOk result (λ v. map (λ r. r.now) v.items ≡ filter_map (λ r. slice_get self.now.references r) (symbol_at self.now symbol.0).references) }
    {
        references_among(
            alloc,
            &self.references,
            self.get_resolved_reference_ids(symbol),
        )
    }

    /// How many references have a symbol.
    pub fn resolved_count(&self) -> u64
        ensures count { result ≡ count_by (λ r. is_some r.symbol) self.now.references }
    {
        resolved_among(&self.references)
    }

    /// The names that nothing declares, in the order of their first references.
    pub fn root_unresolved_references(&self) -> &[Unresolved]
        ensures unresolved { result.now ≡ self.now.unresolved }
    {
        self.unresolved.as_slice()
    }
}
