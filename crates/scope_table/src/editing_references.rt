// References that are added, and the lists that have them.
ghost use Rattle.std.specs.Prelude.{◌≡◌, ◌<◌, ◌+◌, ◌^◌, length, map, option_map, IfOk, OnOk, OnErr};
ghost use Rattle.symbol_sets.specs.Numbers.{has};
ghost use Rattle.scope_table.specs.Kept.{kept_without};
ghost use Rattle.scope_table.specs.Unbound.{place_of};
ghost use Rattle.scope_table.specs.Editing.{with_reference_entry, listed, unlisted, pruned, listed_unresolved, unlisted_unresolved};

use crate::ReferenceFlags;
use crate::reference::Reference;
use crate::scoping::Scoping;
use crate::symbol::Symbol;
use crate::unresolved::Unresolved;
use js_syntax::{ReferenceId, ScopeId, SymbolId};
use std::alloc::AllocError;
use symbol_sets::SymbolSet;

fn symbol_number(symbol: Option<SymbolId>) -> Option<u32>
    ensures { result ≡ option_map (λ s. s.0) symbol }
{
    match symbol {
        Some(symbol) => Some(symbol.0),
        None => None,
    }
}

// Where the item of a name stands.
fn place_of(names: &[Unresolved], name: &str) -> Option<usize>
    ensures { result ≡ place_of name.now 0 names.now }
{
    for (i, item) in names.iter().enumerate() {
        if item.name() == name {
            return Some(i);
        }
    }
    None
}

fn retain_excluding<S: SymbolSet>(symbols: &mut [Symbol], excluded: &S)
    ensures { symbols.new ≡ map (kept_without (has (S.held excluded.now))) symbols.old }
{
    for symbol in symbols.iter_mut() {
        symbol.retain_excluding(excluded);
    }
}

impl Scoping {
    /// Appends a reference, to a symbol or to a name that nothing declares. No list has it yet.
    pub fn create_reference(
        &mut self,
        scope: ScopeId,
        symbol: Option<SymbolId>,
        flags: ReferenceFlags,
    ) -> Result<ReferenceId, AllocError>
        requires few { length self.old.references + 1 < 2 ^ 32 }
        ensures id { IfOk result (λ id. id.0 ≡ length self.old.references) }
        ensures added { OnOk result (self.new ≡ with_reference_entry scope.0 (option_map (λ s. s.0) symbol) flags.0 self.old) }
        ensures unchanged { OnErr result (self.new ≡ self.old) }
    {
        let id = ReferenceId(self.references.len() as u32);
        let reference = Reference::new(scope.0, symbol_number(symbol), flags);
        self.references.push(reference)?;
        Ok(id)
    }

    /// Puts a reference behind the others of a symbol.
    pub fn add_resolved_reference(
        &mut self,
        symbol: SymbolId,
        reference: ReferenceId,
    ) -> Result<(), AllocError>
        requires { symbol.0 < length self.old.symbols }
        ensures listed { OnOk result (self.new ≡ listed symbol.0 reference.0 self.old) }
        ensures unchanged { OnErr result (self.new ≡ self.old) }
    {
        let symbol = &mut self.symbols[symbol.0 as usize];
        symbol.refer(reference.0)?;
        Ok(())
    }

    /// Takes a reference out of a symbol's list alone.
    pub fn delete_resolved_reference(&mut self, symbol: SymbolId, reference: ReferenceId)
        requires { symbol.0 < length self.old.symbols }
        ensures unlisted { self.new ≡ unlisted symbol.0 reference.0 self.old }
    {
        let symbol = &mut self.symbols[symbol.0 as usize];
        symbol.unlist(reference);
    }

    /// Takes the references that are in a set out of the lists of all symbols. The references themselves and
    /// the names that nothing declares stay.
    pub fn retain_resolved_references_excluding<S: SymbolSet>(&mut self, excluded: &S)
        ensures pruned { self.new ≡ pruned (has (S.held excluded.now)) self.old }
    {
        retain_excluding(&mut self.symbols, excluded);
    }

    /// Puts a reference behind the others of a name that nothing declares, which has an item from then on,
    /// behind the others if it had none. The name is copied then.
    pub fn add_root_unresolved_reference(
        &mut self,
        name: &str,
        reference: ReferenceId,
    ) -> Result<(), AllocError>
        ensures listed { OnOk result (self.new ≡ listed_unresolved name.now reference.0 self.old) }
        ensures unchanged { OnErr result (self.new ≡ self.old) }
    {
        let Some(at) = place_of(&self.unresolved, name) else {
            let item = Unresolved::used_once(*self.unresolved.allocator(), name, reference.0)?;
            self.unresolved.push(item)?;
            return Ok(());
        };
        let item = &mut self.unresolved[at];
        item.refer(reference.0)?;
        Ok(())
    }

    /// Takes a reference out of the list of a name that nothing declares, and out of no other. The name
    /// keeps its item, if need be with an empty list.
    pub fn delete_root_unresolved_reference(&mut self, name: &str, reference: ReferenceId)
        ensures unlisted { self.new ≡ unlisted_unresolved name.now reference.0 self.old }
    {
        if let Some(at) = place_of(&self.unresolved, name) {
            let item = &mut self.unresolved[at];
            item.unlist(reference);
        }
    }
}
