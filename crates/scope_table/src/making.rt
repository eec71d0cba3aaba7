// Symbols and references that are added together with what lists them: all of it, or nothing.
ghost use Rattle.std.specs.Prelude.{◌≡◌, ◌<◌, ◌+◌, ◌-◌, ◌^◌, length, take, IfOk, OnOk, OnErr};
ghost use Rattle.scope_table.specs.Making.{with_bound_symbol, with_bound_reference, with_unbound_reference};

use crate::scoping::Scoping;
use crate::{ReferenceFlags, SymbolFlags};
use js_syntax::{ReferenceId, ScopeId, SymbolId};
use std::alloc::{AllocError, Global};

impl Scoping {
    /// Where the table takes its memory.
    pub fn allocator(&self) -> Global {
        *self.scopes.allocator()
    }

    fn take_back_symbol(&mut self)
        ensures { self.new ≡ record self.old { symbols = take (length self.old.symbols - 1) self.old.symbols } }
    {
        let _last = self.symbols.pop();
    }

    fn take_back_reference(&mut self)
        ensures { self.new ≡ record self.old { references = take (length self.old.references - 1) self.old.references } }
    {
        let _last = self.references.pop();
    }

    /// Appends a symbol and binds its name in its scope. The name is copied.
    pub fn create_bound_symbol(
        &mut self,
        name: &str,
        flags: SymbolFlags,
        scope: ScopeId,
    ) -> Result<SymbolId, AllocError>
        requires few { length self.old.symbols + 1 < 2 ^ 32 }
        requires scope { scope.0 < length self.old.scopes }
        ensures id { IfOk result (λ id. id.0 ≡ length self.old.symbols) }
        ensures added { OnOk result (self.new ≡ with_bound_symbol name.now flags.0 scope.0 self.old) }
        ensures unchanged { OnErr result (self.new ≡ self.old) }
    {
        let symbol = self.create_symbol(name, flags, scope)?;
        match self.add_binding(scope, name, symbol) {
            Ok(()) => Ok(symbol),
            Err(error) => {
                self.take_back_symbol();
                Err(error)
            }
        }
    }

    /// Appends a reference to a symbol and puts it behind the others of the symbol.
    pub fn create_bound_reference(
        &mut self,
        scope: ScopeId,
        symbol: SymbolId,
        flags: ReferenceFlags,
    ) -> Result<ReferenceId, AllocError>
        requires few { length self.old.references + 1 < 2 ^ 32 }
        requires symbol { symbol.0 < length self.old.symbols }
        ensures id { IfOk result (λ id. id.0 ≡ length self.old.references) }
        ensures added { OnOk result (self.new ≡ with_bound_reference scope.0 symbol.0 flags.0 self.old) }
        ensures unchanged { OnErr result (self.new ≡ self.old) }
    {
        let reference = self.create_reference(scope, Some(symbol), flags)?;
        match self.add_resolved_reference(symbol, reference) {
            Ok(()) => Ok(reference),
            Err(error) => {
                self.take_back_reference();
                Err(error)
            }
        }
    }

    /// Appends a reference to a name that nothing declares and puts it behind the others of the name.
    pub fn create_unbound_reference(
        &mut self,
        scope: ScopeId,
        name: &str,
        flags: ReferenceFlags,
    ) -> Result<ReferenceId, AllocError>
        requires few { length self.old.references + 1 < 2 ^ 32 }
        ensures id { IfOk result (λ id. id.0 ≡ length self.old.references) }
        ensures added { OnOk result (self.new ≡ with_unbound_reference scope.0 name.now flags.0 self.old) }
        ensures unchanged { OnErr result (self.new ≡ self.old) }
    {
        let reference = self.create_reference(scope, None, flags)?;
        match self.add_root_unresolved_reference(name, reference) {
            Ok(()) => Ok(reference),
            Err(error) => {
                self.take_back_reference();
                Err(error)
            }
        }
    }
}
