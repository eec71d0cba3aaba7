// Names with the symbols that they mean, and the nodes that are made of them.
ghost use Rattle.std.specs.Prelude.{◌≡◌, ◌<◌, Some, IsSome, IfSome, IfOk, length, option_map};
ghost use Rattle.js_syntax.specs.declared.node_kind.NodeKind.TheVariants.{BindingName as binding_name};
ghost use Rattle.js_syntax.specs.Node.{nowhere};
ghost use Rattle.scope_table.specs.Reading.{reference_at};
ghost use Rattle.js_traverse.specs.Names.{declared_name, used_name};
ghost use Rattle.js_traverse.specs.Identifier.{leaf, Makes, MayRefer};
ghost use Rattle.js_traverse.specs.Worded.{worded};

use crate::names::{declared_name, used_name};
use crate::scoping::TraverseScoping;
use js_syntax::{Ident, NodeKind, ReferenceId, SPAN, Span, SymbolId};
use js_tree::Node;
use scope_table::ReferenceFlags;
use std::alloc::{AllocError, Global};

/// A name and the symbol that it means.
pub struct BoundIdentifier {
    pub name: Ident,
    pub symbol_id: SymbolId,
}

impl Drop for BoundIdentifier {
    fn drop(self) {
        let BoundIdentifier {
            name: _,
            symbol_id: _,
        } = self;
    }
}

/// A name and the symbol that it means, if something declares it.
pub struct MaybeBoundIdentifier {
    pub name: Ident,
    pub symbol_id: Option<SymbolId>,
}

impl Drop for MaybeBoundIdentifier {
    fn drop(self) {
        let MaybeBoundIdentifier {
            name: _,
            symbol_id: _,
        } = self;
    }
}

// What a reference's node is: one that uses the name, or the target of an assignment or an update.
#[derive(Clone, Copy)]
pub(crate) enum Word {
    Reference,
    Target,
}

impl Word {
    fn of(self, name: Ident) -> NodeKind
        ensures { result ≡ worded self name }
    {
        match self {
            Word::Reference => NodeKind::ReferenceName(name),
            Word::Target => NodeKind::TargetName(name),
        }
    }
}

// A node that nothing lies below.
fn leaf(alloc: Global, kind: NodeKind, span: Span, id: u32) -> Node
    ensures { result ≡ leaf kind span id }
{
    let mut node = Node::new(kind, span, Vec::new(alloc));
    node.set_id(Some(id));
    node
}

// Makes a reference and its node.
pub(crate) fn make(
    word: Word,
    span: Span,
    flags: ReferenceFlags,
    name: &Ident,
    symbol: Option<SymbolId>,
    traverse: &mut TraverseScoping,
) -> Result<Node, AllocError>
    requires { MayRefer (option_map (λ s. s.0) symbol) traverse.old }
    ensures { Makes (worded word name.now) span flags.0 name.now (option_map (λ s. s.0) symbol) traverse.old traverse.new result }
{
    let alloc = traverse.scoping().allocator();
    let kind = word.of(name.try_clone(alloc)?);
    let reference = traverse.create_reference(name.as_str(), symbol, flags)?;
    Ok(leaf(alloc, kind, span, reference.0))
}

impl BoundIdentifier {
    pub fn new(name: Ident, symbol_id: SymbolId) -> BoundIdentifier
        ensures name { result.name ≡ name }
        ensures symbol { result.symbol_id ≡ symbol_id }
    {
        BoundIdentifier { name, symbol_id }
    }

    /// Of a node that declares its name. The name is copied.
    pub fn from_binding_ident(alloc: Global, ident: &Node) -> Result<BoundIdentifier, AllocError>
        requires name { IsSome (declared_name ident.now.kind) }
        requires symbol { IsSome ident.now.note.id }
        ensures name { IfOk result (λ b. Some b.name ≡ declared_name ident.now.kind) }
        ensures symbol { IfOk result (λ b. Some b.symbol_id.0 ≡ ident.now.note.id) }
    {
        let Some(symbol) = ident.id() else {
            unreachable!();
        };
        let Some(name) = declared_name(ident.kind()) else {
            unreachable!();
        };
        let name = name.try_clone(alloc)?;
        Ok(BoundIdentifier::new(name, SymbolId(symbol)))
    }

    /// The same as one that may lack a symbol. The name is copied.
    pub fn to_maybe_bound_identifier(
        &self,
        alloc: Global,
    ) -> Result<MaybeBoundIdentifier, AllocError>
        ensures name { IfOk result (λ b. b.name ≡ self.now.name) }
        ensures symbol { IfOk result (λ b. b.symbol_id ≡ Some self.now.symbol_id) }
    {
        let name = self.name.try_clone(alloc)?;
        Ok(MaybeBoundIdentifier::new(name, Some(self.symbol_id)))
    }

    /// A node that declares the name, at `SPAN`. The name is copied.
    pub fn create_binding_identifier(&self, alloc: Global) -> Result<Node, AllocError>
        ensures made { IfOk result (λ n. n ≡ leaf (binding_name self.now.name) nowhere.span self.now.symbol_id.0) }
    {
        let name = self.name.try_clone(alloc)?;
        let kind = NodeKind::BindingName(name);
        Ok(leaf(alloc, kind, SPAN, self.symbol_id.0))
    }

    /// The pattern that is the name alone, at `SPAN`. The name is copied.
    pub fn create_binding_pattern(&self, alloc: Global) -> Result<Node, AllocError>
        ensures made { IfOk result (λ n. n ≡ leaf (binding_name self.now.name) nowhere.span self.now.symbol_id.0) }
    {
        self.create_binding_identifier(alloc)
    }
}

impl MaybeBoundIdentifier {
    pub fn new(name: Ident, symbol_id: Option<SymbolId>) -> MaybeBoundIdentifier
        ensures name { result.name ≡ name }
        ensures symbol { result.symbol_id ≡ symbol_id }
    {
        MaybeBoundIdentifier { name, symbol_id }
    }

    /// Of a node that refers by its name. The name is copied.
    pub fn from_identifier_reference(
        ident: &Node,
        traverse: &TraverseScoping,
    ) -> Result<MaybeBoundIdentifier, AllocError>
        requires name { IsSome (used_name ident.now.kind) }
        requires reference { IsSome ident.now.note.id }
        requires live { IfSome ident.now.note.id (λ id. id < length traverse.now.scoping.references) }
        ensures name { IfOk result (λ b. Some b.name ≡ used_name ident.now.kind) }
        ensures symbol { IfOk result (λ b. IfSome ident.now.note.id (λ id. option_map (λ s. s.0) b.symbol_id ≡ (reference_at traverse.now.scoping id).symbol)) }
    {
        let Some(reference) = ident.id() else {
            unreachable!();
        };
        let Some(name) = used_name(ident.kind()) else {
            unreachable!();
        };
        let scoping = traverse.scoping();
        let symbol = scoping.get_reference(ReferenceId(reference)).symbol_id();
        let name = name.try_clone(scoping.allocator())?;
        Ok(MaybeBoundIdentifier::new(name, symbol))
    }

    /// The same as one that has a symbol, unless this one has none. The name is copied.
    pub fn to_bound_identifier(&self, alloc: Global) -> Result<Option<BoundIdentifier>, AllocError>
        ensures name { IfOk result (λ o. option_map (λ b. b.name) o ≡ option_map (λ _. self.now.name) self.now.symbol_id) }
        ensures symbol { IfOk result (λ o. option_map (λ b. b.symbol_id) o ≡ self.now.symbol_id) }
    {
        let Some(symbol) = self.symbol_id else {
            return Ok(None);
        };
        let name = self.name.try_clone(alloc)?;
        Ok(Some(BoundIdentifier::new(name, symbol)))
    }
}
