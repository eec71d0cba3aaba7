// Names and references that the context makes.
ghost use Rattle.std.specs.Prelude.{◌≡◌, ◌<◌, ◌+◌, ◌^◌, None, Some, length, option_map, IfOk, OnOk, OnErr};
ghost use Rattle.js_syntax.specs.Node.{forest_of};
ghost use Rattle.js_traverse.specs.Traversed.{IsLive};
ghost use Rattle.scope_rules.specs.SymbolFlags as symbol_flag;
ghost use Rattle.min_context.specs.Generating.{fresh, with_uid, a_reference, with_reference};
ghost use Rattle.min_context.specs.Naming.{name_of};

use crate::context::MinifierTraverseCtx;
use crate::naming::name_of;
use js_syntax::{Ident, NodeKind, ReferenceId, ScopeId, Span, SymbolId};
use js_traverse::BoundIdentifier;
use js_tree::Node;
use scope_table::{ReferenceFlags, SymbolFlags};
use std::alloc::{AllocError, Global};

fn reference_node(alloc: Global, name: Ident, span: Span, id: ReferenceId) -> Node
    ensures { result ≡ a_reference name span id.0 }
{
    let mut node = Node::new(NodeKind::ReferenceName(name), span, Vec::new(alloc));
    node.set_id(Some(id.0));
    node
}

impl MinifierTraverseCtx {
    // ---- fresh names. One that is made is used up, even if there is no memory to bind it then.

    /// Binds a fresh name, made of this one, in a scope. It fails only for want of memory.
    pub fn generate_uid(
        &mut self,
        name: &str,
        scope: ScopeId,
        flags: SymbolFlags,
    ) -> Result<BoundIdentifier, AllocError>
        requires few { length self.old.scoping.symbols + 1 < 2 ^ 32 }
        requires scope { scope.0 < length self.old.scoping.scopes }
        ensures name { IfOk result (λ b. b.name ≡ fresh name.now self.old) }
        ensures symbol { IfOk result (λ b. b.symbol_id.0 ≡ length self.old.scoping.symbols) }
        ensures bound { OnOk result (self.new ≡ with_uid name.now flags.0 scope.0 self.old) }
        ensures unchanged { OnErr result (self.new ≡ record self.old { uids = self.new.uids }) }
    {
        let fresh = self.generate_uid_name(name)?;
        self.generate_binding(fresh, scope, flags)
    }

    /// The same in the innermost scope around.
    pub fn generate_uid_in_current_scope(
        &mut self,
        name: &str,
        flags: SymbolFlags,
    ) -> Result<BoundIdentifier, AllocError>
        requires few { length self.old.scoping.symbols + 1 < 2 ^ 32 }
        requires scope { self.old.place.scope < length self.old.scoping.scopes }
        ensures name { IfOk result (λ b. b.name ≡ fresh name.now self.old) }
        ensures symbol { IfOk result (λ b. b.symbol_id.0 ≡ length self.old.scoping.symbols) }
        ensures bound { OnOk result (self.new ≡ with_uid name.now flags.0 self.old.place.scope self.old) }
        ensures unchanged { OnErr result (self.new ≡ record self.old { uids = self.new.uids }) }
    {
        let scope = self.current_scope_id();
        self.generate_uid(name, scope, flags)
    }

    /// The same in the program's scope.
    pub fn generate_uid_in_root_scope(
        &mut self,
        name: &str,
        flags: SymbolFlags,
    ) -> Result<BoundIdentifier, AllocError>
        requires few { length self.old.scoping.symbols + 1 < 2 ^ 32 }
        requires scope { 0 < length self.old.scoping.scopes }
        ensures name { IfOk result (λ b. b.name ≡ fresh name.now self.old) }
        ensures symbol { IfOk result (λ b. b.symbol_id.0 ≡ length self.old.scoping.symbols) }
        ensures bound { OnOk result (self.new ≡ with_uid name.now flags.0 0 self.old) }
        ensures unchanged { OnErr result (self.new ≡ record self.old { uids = self.new.uids }) }
    {
        self.generate_uid(name, ScopeId(0), flags)
    }

    /// The same as a variable, in the innermost scope in which `var` declares.
    pub fn generate_uid_in_current_hoist_scope(
        &mut self,
        name: &str,
    ) -> Result<BoundIdentifier, AllocError>
        requires few { length self.old.scoping.symbols + 1 < 2 ^ 32 }
        requires scope { self.old.place.hoist_scope < length self.old.scoping.scopes }
        ensures name { IfOk result (λ b. b.name ≡ fresh name.now self.old) }
        ensures symbol { IfOk result (λ b. b.symbol_id.0 ≡ length self.old.scoping.symbols) }
        ensures bound { OnOk result (self.new ≡ with_uid name.now symbol_flag.function_scoped_variable self.old.place.hoist_scope self.old) }
        ensures unchanged { OnErr result (self.new ≡ record self.old { uids = self.new.uids }) }
    {
        let scope = self.current_hoist_scope_id();
        self.generate_uid(name, scope, SymbolFlags::FunctionScopedVariable)
    }

    /// Binds a fresh name, made of what an expression names, in a scope.
    pub fn generate_uid_based_on_node(
        &mut self,
        node: &Node,
        scope: ScopeId,
        flags: SymbolFlags,
    ) -> Result<BoundIdentifier, AllocError>
        requires few { length self.old.scoping.symbols + 1 < 2 ^ 32 }
        requires scope { scope.0 < length self.old.scoping.scopes }
        ensures name { IfOk result (λ b. b.name ≡ fresh (name_of (forest_of node.now)) self.old) }
        ensures symbol { IfOk result (λ b. b.symbol_id.0 ≡ length self.old.scoping.symbols) }
        ensures bound { OnOk result (self.new ≡ with_uid (name_of (forest_of node.now)) flags.0 scope.0 self.old) }
        ensures unchanged { OnErr result (self.new ≡ record self.old { uids = self.new.uids }) }
    {
        let name = name_of(self.alloc, node)?;
        self.generate_uid(name.as_str(), scope, flags)
    }

    /// The same in the innermost scope around.
    pub fn generate_uid_in_current_scope_based_on_node(
        &mut self,
        node: &Node,
        flags: SymbolFlags,
    ) -> Result<BoundIdentifier, AllocError>
        requires few { length self.old.scoping.symbols + 1 < 2 ^ 32 }
        requires scope { self.old.place.scope < length self.old.scoping.scopes }
        ensures name { IfOk result (λ b. b.name ≡ fresh (name_of (forest_of node.now)) self.old) }
        ensures symbol { IfOk result (λ b. b.symbol_id.0 ≡ length self.old.scoping.symbols) }
        ensures bound { OnOk result (self.new ≡ with_uid (name_of (forest_of node.now)) flags.0 self.old.place.scope self.old) }
        ensures unchanged { OnErr result (self.new ≡ record self.old { uids = self.new.uids }) }
    {
        let scope = self.current_scope_id();
        self.generate_uid_based_on_node(node, scope, flags)
    }

    /// The same as a variable, in the innermost scope in which `var` declares.
    pub fn generate_uid_in_current_hoist_scope_based_on_node(
        &mut self,
        node: &Node,
    ) -> Result<BoundIdentifier, AllocError>
        requires few { length self.old.scoping.symbols + 1 < 2 ^ 32 }
        requires scope { self.old.place.hoist_scope < length self.old.scoping.scopes }
        ensures name { IfOk result (λ b. b.name ≡ fresh (name_of (forest_of node.now)) self.old) }
        ensures symbol { IfOk result (λ b. b.symbol_id.0 ≡ length self.old.scoping.symbols) }
        ensures bound { OnOk result (self.new ≡ with_uid (name_of (forest_of node.now)) symbol_flag.function_scoped_variable self.old.place.hoist_scope self.old) }
        ensures unchanged { OnErr result (self.new ≡ record self.old { uids = self.new.uids }) }
    {
        let scope = self.current_hoist_scope_id();
        self.generate_uid_based_on_node(node, scope, SymbolFlags::FunctionScopedVariable)
    }

    // ---- references, in the innermost scope around

    /// A name that refers to the symbol, or that nothing declares if there is none. It fails only for want of memory.
    pub fn create_ident_reference(
        &mut self,
        span: Span,
        name: Ident,
        symbol: Option<SymbolId>,
        flags: ReferenceFlags,
    ) -> Result<Node, AllocError>
        requires few { length self.old.scoping.references + 1 < 2 ^ 32 }
        requires symbol { IsLive self.old.scoping (option_map (λ s. s.0) symbol) }
        ensures node { IfOk result (λ n. n ≡ a_reference name span (length self.old.scoping.references)) }
        ensures listed { OnOk result (self.new ≡ with_reference name (option_map (λ s. s.0) symbol) flags.0 self.old) }
        ensures unchanged { OnErr result (self.new ≡ self.old) }
    {
        let id = self.create_reference(name.as_str(), symbol, flags)?;
        Ok(reference_node(self.alloc, name, span, id))
    }

    /// The same as an expression, which the node is too.
    pub fn create_ident_expr(
        &mut self,
        span: Span,
        name: Ident,
        symbol: Option<SymbolId>,
        flags: ReferenceFlags,
    ) -> Result<Node, AllocError>
        requires few { length self.old.scoping.references + 1 < 2 ^ 32 }
        requires symbol { IsLive self.old.scoping (option_map (λ s. s.0) symbol) }
        ensures node { IfOk result (λ n. n ≡ a_reference name span (length self.old.scoping.references)) }
        ensures listed { OnOk result (self.new ≡ with_reference name (option_map (λ s. s.0) symbol) flags.0 self.old) }
        ensures unchanged { OnErr result (self.new ≡ self.old) }
    {
        self.create_ident_reference(span, name, symbol, flags)
    }

    /// A name that refers to the symbol.
    pub fn create_bound_ident_reference(
        &mut self,
        span: Span,
        name: Ident,
        symbol: SymbolId,
        flags: ReferenceFlags,
    ) -> Result<Node, AllocError>
        requires few { length self.old.scoping.references + 1 < 2 ^ 32 }
        requires symbol { symbol.0 < length self.old.scoping.symbols }
        ensures node { IfOk result (λ n. n ≡ a_reference name span (length self.old.scoping.references)) }
        ensures listed { OnOk result (self.new ≡ with_reference name (Some symbol.0) flags.0 self.old) }
        ensures unchanged { OnErr result (self.new ≡ self.old) }
    {
        self.create_ident_reference(span, name, Some(symbol), flags)
    }

    /// The same as an expression.
    pub fn create_bound_ident_expr(
        &mut self,
        span: Span,
        name: Ident,
        symbol: SymbolId,
        flags: ReferenceFlags,
    ) -> Result<Node, AllocError>
        requires few { length self.old.scoping.references + 1 < 2 ^ 32 }
        requires symbol { symbol.0 < length self.old.scoping.symbols }
        ensures node { IfOk result (λ n. n ≡ a_reference name span (length self.old.scoping.references)) }
        ensures listed { OnOk result (self.new ≡ with_reference name (Some symbol.0) flags.0 self.old) }
        ensures unchanged { OnErr result (self.new ≡ self.old) }
    {
        self.create_ident_reference(span, name, Some(symbol), flags)
    }

    /// A name that nothing declares.
    pub fn create_unbound_ident_reference(
        &mut self,
        span: Span,
        name: Ident,
        flags: ReferenceFlags,
    ) -> Result<Node, AllocError>
        requires few { length self.old.scoping.references + 1 < 2 ^ 32 }
        ensures node { IfOk result (λ n. n ≡ a_reference name span (length self.old.scoping.references)) }
        ensures listed { OnOk result (self.new ≡ with_reference name None flags.0 self.old) }
        ensures unchanged { OnErr result (self.new ≡ self.old) }
    {
        self.create_ident_reference(span, name, None, flags)
    }

    /// The same as an expression.
    pub fn create_unbound_ident_expr(
        &mut self,
        span: Span,
        name: Ident,
        flags: ReferenceFlags,
    ) -> Result<Node, AllocError>
        requires few { length self.old.scoping.references + 1 < 2 ^ 32 }
        ensures node { IfOk result (λ n. n ≡ a_reference name span (length self.old.scoping.references)) }
        ensures listed { OnOk result (self.new ≡ with_reference name None flags.0 self.old) }
        ensures unchanged { OnErr result (self.new ≡ self.old) }
    {
        self.create_ident_reference(span, name, None, flags)
    }
}
