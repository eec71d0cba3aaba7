// The calls of the scoping that a walk edits, on its context.
ghost use Rattle.std.specs.Prelude.{◌≡◌, ◌<◌, ◌+◌, ◌^◌, Some, length, map, option_map, IsSome, IfSome, IfOk, OnOk, OnErr};
ghost use Rattle.scope_table.specs.Reading.{scope_at, reference_at, binding_of, ancestors};
ghost use Rattle.scope_table.specs.Editing.{with_scope, with_binding, IsOutside};
ghost use Rattle.scope_table.specs.Making.{with_bound_symbol, with_bound_reference, with_unbound_reference};
ghost use Rattle.js_syntax.specs.Node.{forest_of, row};
ghost use Rattle.js_traverse.specs.Names.{used_name};
ghost use Rattle.fresh_names.specs.Uid.{fresh_name, with_fresh};
ghost use Rattle.js_traverse.specs.Below.{outermost, with_parents, MayMove, with_scope_around};
ghost use Rattle.js_traverse.specs.Traversed.{known_in, with_scope_between, with_reference_to, with_reference_deleted, IsLive};
ghost use Rattle.min_context.specs.Seen.{traversed};

use crate::context::MinifierTraverseCtx;
use js_syntax::{Ident, ReferenceId, ScopeId, SymbolId};
use js_traverse::{AncestorScopes, BoundIdentifier};
use js_tree::Node;
use scope_table::{ReferenceFlags, ScopeFlags, SymbolFlags};
use std::alloc::AllocError;

impl MinifierTraverseCtx {
    /// The innermost scope around the walk.
    pub fn current_scope_id(&self) -> ScopeId
        ensures current { result.0 ≡ self.now.place.scope }
    {
        self.scoping.current_scope_id()
    }

    /// The innermost scope that `var` declares in.
    pub fn current_hoist_scope_id(&self) -> ScopeId
        ensures hoist { result.0 ≡ self.now.place.hoist_scope }
    {
        self.scoping.current_hoist_scope_id()
    }

    /// The innermost scope that `let` declares in.
    pub fn current_block_scope_id(&self) -> ScopeId
        ensures block { result.0 ≡ self.now.place.block_scope }
    {
        self.scoping.current_block_scope_id()
    }

    /// What the innermost scope around the walk is.
    pub fn current_scope_flags(&self) -> ScopeFlags
        requires { self.now.place.scope < length self.now.scoping.scopes }
        ensures flags { result.0 ≡ (scope_at self.now.scoping self.now.place.scope).flags }
    {
        self.scoping.current_scope_flags()
    }

    /// Appends a scope inside one.
    pub fn create_child_scope(
        &mut self,
        parent: ScopeId,
        flags: ScopeFlags,
    ) -> Result<ScopeId, AllocError>
        requires few { length self.old.scoping.scopes + 1 < 2 ^ 32 }
        requires parent { parent.0 < length self.old.scoping.scopes }
        ensures id { IfOk result (λ id. id.0 ≡ length self.old.scoping.scopes) }
        ensures added { OnOk result (self.new ≡ record self.old { scoping = with_scope (Some parent.0) flags.0 self.old.scoping }) }
        ensures unchanged { OnErr result (self.new ≡ self.old) }
    {
        self.scoping.create_child_scope(parent, flags)
    }

    /// Appends a scope inside the one that the walk is in.
    pub fn create_child_scope_of_current(
        &mut self,
        flags: ScopeFlags,
    ) -> Result<ScopeId, AllocError>
        requires few { length self.old.scoping.scopes + 1 < 2 ^ 32 }
        requires current { self.old.place.scope < length self.old.scoping.scopes }
        ensures id { IfOk result (λ id. id.0 ≡ length self.old.scoping.scopes) }
        ensures added { OnOk result (self.new ≡ record self.old { scoping = with_scope (Some self.old.place.scope) flags.0 self.old.scoping }) }
        ensures unchanged { OnErr result (self.new ≡ self.old) }
    {
        self.scoping.create_child_scope_of_current(flags)
    }

    /// Appends a scope between a scope and the one around it.
    pub fn insert_scope_between(
        &mut self,
        parent: ScopeId,
        child: ScopeId,
        flags: ScopeFlags,
    ) -> Result<ScopeId, AllocError>
        requires few { length self.old.scoping.scopes + 1 < 2 ^ 32 }
        requires parent { parent.0 < length self.old.scoping.scopes }
        requires child { child.0 < length self.old.scoping.scopes }
        requires around { (scope_at self.old.scoping child.0).parent ≡ Some parent.0 }
        // Where the new scope stands inside the parent, it is not inside the child.
        requires outside { IsOutside (with_scope (Some parent.0) flags.0 self.old.scoping) child.0 (length self.old.scoping.scopes) }
        ensures id { IfOk result (λ id. id.0 ≡ length self.old.scoping.scopes) }
        ensures between { OnOk result (self.new ≡ record self.old { scoping = with_scope_between parent.0 child.0 flags.0 self.old.scoping }) }
        ensures unchanged { OnErr result (self.new ≡ self.old) }
    {
        self.scoping.insert_scope_between(parent, child, flags)
    }

    /// Appends a scope inside one, around a statement: the outermost scopes of the statement stand inside it then.
    pub fn insert_scope_below_statement_from_scope_id(
        &mut self,
        statement: &Node,
        parent: ScopeId,
        flags: ScopeFlags,
    ) -> Result<ScopeId, AllocError>
        requires few { length self.old.scoping.scopes + 1 < 2 ^ 32 }
        requires parent { parent.0 < length self.old.scoping.scopes }
        // Where the new scope stands inside the parent, it is none of these scopes and not inside them.
        requires outside { MayMove (outermost (forest_of statement.now)) (length self.old.scoping.scopes) (with_scope (Some parent.0) flags.0 self.old.scoping) }
        ensures id { IfOk result (λ id. id.0 ≡ length self.old.scoping.scopes) }
        ensures around { OnOk result (self.new ≡ record self.old { scoping = with_scope_around (outermost (forest_of statement.now)) parent.0 flags.0 self.old.scoping }) }
        ensures unchanged { OnErr result (self.new ≡ self.old) }
    {
        self.scoping
            .insert_scope_below_statement_from_scope_id(statement, parent, flags)
    }

    /// Appends a scope inside the one that the walk is in, around a statement.
    pub fn insert_scope_below_statement(
        &mut self,
        statement: &Node,
        flags: ScopeFlags,
    ) -> Result<ScopeId, AllocError>
        requires few { length self.old.scoping.scopes + 1 < 2 ^ 32 }
        requires current { self.old.place.scope < length self.old.scoping.scopes }
        requires outside { MayMove (outermost (forest_of statement.now)) (length self.old.scoping.scopes) (with_scope (Some self.old.place.scope) flags.0 self.old.scoping) }
        ensures id { IfOk result (λ id. id.0 ≡ length self.old.scoping.scopes) }
        ensures around { OnOk result (self.new ≡ record self.old { scoping = with_scope_around (outermost (forest_of statement.now)) self.old.place.scope flags.0 self.old.scoping }) }
        ensures unchanged { OnErr result (self.new ≡ self.old) }
    {
        self.scoping.insert_scope_below_statement(statement, flags)
    }

    /// Appends a scope inside the one that the walk is in, around an expression.
    pub fn insert_scope_below_expression(
        &mut self,
        expression: &Node,
        flags: ScopeFlags,
    ) -> Result<ScopeId, AllocError>
        requires few { length self.old.scoping.scopes + 1 < 2 ^ 32 }
        requires current { self.old.place.scope < length self.old.scoping.scopes }
        requires outside { MayMove (outermost (forest_of expression.now)) (length self.old.scoping.scopes) (with_scope (Some self.old.place.scope) flags.0 self.old.scoping) }
        ensures id { IfOk result (λ id. id.0 ≡ length self.old.scoping.scopes) }
        ensures around { OnOk result (self.new ≡ record self.old { scoping = with_scope_around (outermost (forest_of expression.now)) self.old.place.scope flags.0 self.old.scoping }) }
        ensures unchanged { OnErr result (self.new ≡ self.old) }
    {
        self.scoping
            .insert_scope_below_expression(expression, flags)
    }

    /// Appends a scope inside the one that the walk is in, around the statements of a list.
    pub fn insert_scope_below_statements(
        &mut self,
        statements: &[Option<Node>],
        flags: ScopeFlags,
    ) -> Result<ScopeId, AllocError>
        requires few { length self.old.scoping.scopes + 1 < 2 ^ 32 }
        requires current { self.old.place.scope < length self.old.scoping.scopes }
        requires outside { MayMove (outermost (row statements.now)) (length self.old.scoping.scopes) (with_scope (Some self.old.place.scope) flags.0 self.old.scoping) }
        ensures id { IfOk result (λ id. id.0 ≡ length self.old.scoping.scopes) }
        ensures around { OnOk result (self.new ≡ record self.old { scoping = with_scope_around (outermost (row statements.now)) self.old.place.scope flags.0 self.old.scoping }) }
        ensures unchanged { OnErr result (self.new ≡ self.old) }
    {
        self.scoping
            .insert_scope_below_statements(statements, flags)
    }

    /// Puts the outermost scopes of an expression into the scope around one that goes. That scope stays in the
    /// table, and no node makes it any more.
    pub fn remove_scope_for_expression(
        &mut self,
        scope: ScopeId,
        expression: &Node,
    ) -> Result<(), AllocError>
        requires scope { scope.0 < length self.old.scoping.scopes }
        requires around { IsSome (scope_at self.old.scoping scope.0).parent }
        requires parent { IfSome (scope_at self.old.scoping scope.0).parent (λ p. p < length self.old.scoping.scopes) }
        requires outside { IfSome (scope_at self.old.scoping scope.0).parent (λ p. MayMove (outermost (forest_of expression.now)) p self.old.scoping) }
        ensures moved { OnOk result (IfSome (scope_at self.old.scoping scope.0).parent (λ p. self.new ≡ record self.old { scoping = with_parents (outermost (forest_of expression.now)) p self.old.scoping })) }
        ensures unchanged { OnErr result (self.new ≡ self.old) }
    {
        self.scoping.remove_scope_for_expression(scope, expression)
    }

    /// The scope that the walk is in, the one around it, and so on.
    pub fn ancestor_scopes(&self) -> AncestorScopes<'_>
        ensures scopes { result ≡ ancestors self.now.scoping self.now.place.scope }
    {
        self.scoping.ancestor_scopes()
    }

    /// Binds a name in a scope to a symbol that is there.
    pub fn add_binding(
        &mut self,
        scope: ScopeId,
        name: &str,
        symbol: SymbolId,
    ) -> Result<(), AllocError>
        requires { scope.0 < length self.old.scoping.scopes }
        ensures bound { OnOk result (self.new ≡ record self.old { scoping = with_binding scope.0 name.now symbol.0 self.old.scoping }) }
        ensures unchanged { OnErr result (self.new ≡ self.old) }
    {
        self.scoping.add_binding(scope, name, symbol)
    }

    /// Appends a symbol of this name and binds it in the scope.
    pub fn generate_binding(
        &mut self,
        name: Ident,
        scope: ScopeId,
        flags: SymbolFlags,
    ) -> Result<BoundIdentifier, AllocError>
        requires few { length self.old.scoping.symbols + 1 < 2 ^ 32 }
        requires scope { scope.0 < length self.old.scoping.scopes }
        ensures name { IfOk result (λ b. b.name ≡ name) }
        ensures symbol { IfOk result (λ b. b.symbol_id.0 ≡ length self.old.scoping.symbols) }
        ensures added { OnOk result (self.new ≡ record self.old { scoping = with_bound_symbol name flags.0 scope.0 self.old.scoping }) }
        ensures unchanged { OnErr result (self.new ≡ self.old) }
    {
        self.scoping.generate_binding(name, scope, flags)
    }

    /// Appends a symbol of this name and binds it in the scope that the walk is in.
    pub fn generate_binding_in_current_scope(
        &mut self,
        name: Ident,
        flags: SymbolFlags,
    ) -> Result<BoundIdentifier, AllocError>
        requires few { length self.old.scoping.symbols + 1 < 2 ^ 32 }
        requires current { self.old.place.scope < length self.old.scoping.scopes }
        ensures name { IfOk result (λ b. b.name ≡ name) }
        ensures symbol { IfOk result (λ b. b.symbol_id.0 ≡ length self.old.scoping.symbols) }
        ensures added { OnOk result (self.new ≡ record self.old { scoping = with_bound_symbol name flags.0 self.old.place.scope self.old.scoping }) }
        ensures unchanged { OnErr result (self.new ≡ self.old) }
    {
        self.scoping.generate_binding_in_current_scope(name, flags)
    }

    /// A name that the program doesn't have. The generator is made at the first of them, and isn't told of
    /// names that are bound later.
    pub fn generate_uid_name(&mut self, name: &str) -> Result<Ident, AllocError>
        ensures name { IfOk result (λ n. n ≡ fresh_name name.now (known_in (traversed self.old))) }
        ensures known { OnOk result (self.new ≡ record self.old { uids = Some (with_fresh name.now (known_in (traversed self.old))) }) }
        ensures unchanged { OnErr result (self.new ≡ self.old) }
    {
        self.scoping.generate_uid_name(name)
    }

    /// Appends a reference to a symbol in the scope that the walk is in.
    pub fn create_bound_reference(
        &mut self,
        symbol: SymbolId,
        flags: ReferenceFlags,
    ) -> Result<ReferenceId, AllocError>
        requires few { length self.old.scoping.references + 1 < 2 ^ 32 }
        requires symbol { symbol.0 < length self.old.scoping.symbols }
        ensures id { IfOk result (λ id. id.0 ≡ length self.old.scoping.references) }
        ensures added { OnOk result (self.new ≡ record self.old { scoping = with_bound_reference self.old.place.scope symbol.0 flags.0 self.old.scoping }) }
        ensures unchanged { OnErr result (self.new ≡ self.old) }
    {
        self.scoping.create_bound_reference(symbol, flags)
    }

    /// Appends a reference to a name that nothing declares, in the scope that the walk is in.
    pub fn create_unbound_reference(
        &mut self,
        name: &str,
        flags: ReferenceFlags,
    ) -> Result<ReferenceId, AllocError>
        requires few { length self.old.scoping.references + 1 < 2 ^ 32 }
        ensures id { IfOk result (λ id. id.0 ≡ length self.old.scoping.references) }
        ensures added { OnOk result (self.new ≡ record self.old { scoping = with_unbound_reference self.old.place.scope name.now flags.0 self.old.scoping }) }
        ensures unchanged { OnErr result (self.new ≡ self.old) }
    {
        self.scoping.create_unbound_reference(name, flags)
    }

    /// Appends a reference to the symbol, or to the name if there is none, in the scope that the walk is in.
    pub fn create_reference(
        &mut self,
        name: &str,
        symbol: Option<SymbolId>,
        flags: ReferenceFlags,
    ) -> Result<ReferenceId, AllocError>
        requires few { length self.old.scoping.references + 1 < 2 ^ 32 }
        requires symbol { IsLive self.old.scoping (option_map (λ s. s.0) symbol) }
        ensures id { IfOk result (λ id. id.0 ≡ length self.old.scoping.references) }
        ensures added { OnOk result (self.new ≡ record self.old { scoping = with_reference_to self.old.place.scope name.now (option_map (λ s. s.0) symbol) flags.0 self.old.scoping }) }
        ensures unchanged { OnErr result (self.new ≡ self.old) }
    {
        self.scoping.create_reference(name, symbol, flags)
    }

    /// Appends a reference to what the name means in the scope that the walk is in.
    pub fn create_reference_in_current_scope(
        &mut self,
        name: &str,
        flags: ReferenceFlags,
    ) -> Result<ReferenceId, AllocError>
        requires few { length self.old.scoping.references + 1 < 2 ^ 32 }
        requires current { self.old.place.scope < length self.old.scoping.scopes }
        requires bound { IsLive self.old.scoping (binding_of self.old.scoping self.old.place.scope name.now) }
        ensures id { IfOk result (λ id. id.0 ≡ length self.old.scoping.references) }
        ensures added { OnOk result (self.new ≡ record self.old { scoping = with_reference_to self.old.place.scope name.now (binding_of self.old.scoping self.old.place.scope name.now) flags.0 self.old.scoping }) }
        ensures unchanged { OnErr result (self.new ≡ self.old) }
    {
        self.scoping.create_reference_in_current_scope(name, flags)
    }

    /// Takes a reference out of its symbol's list, or out of that of its name. The reference itself stays.
    pub fn delete_reference(&mut self, reference: ReferenceId, name: &str)
        requires reference { reference.0 < length self.old.scoping.references }
        requires symbol { IsLive self.old.scoping (reference_at self.old.scoping reference.0).symbol }
        ensures deleted { self.new ≡ record self.old { scoping = with_reference_deleted reference.0 name.now self.old.scoping } }
    {
        self.scoping.delete_reference(reference, name)
    }

    /// Takes the reference of a name's node out of its symbol's list, or out of that of its name. The reference itself
    /// stays.
    pub fn delete_reference_for_identifier(&mut self, identifier: &Node)
        requires name { IsSome (used_name identifier.now.kind) }
        requires reference { IsSome identifier.now.note.id }
        requires live { IfSome identifier.now.note.id (λ id. id < length self.old.scoping.references) }
        requires symbol { IfSome identifier.now.note.id (λ id. IsLive self.old.scoping (reference_at self.old.scoping id).symbol) }
        ensures deleted { IfSome identifier.now.note.id (λ id. IfSome (used_name identifier.now.kind) (λ name. self.new ≡ record self.old { scoping = with_reference_deleted id name self.old.scoping })) }
    {
        self.scoping.delete_reference_for_identifier(identifier)
    }
}
