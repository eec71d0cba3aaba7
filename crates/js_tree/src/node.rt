// A node of the tree.
ghost use Rattle.std.specs.Prelude.{◌≡◌, None};
ghost use Rattle.js_syntax.specs.Node.{row};

use js_syntax::{NodeKind, Span};
use std::marker::Model;
use std::mem::replace;

/// A node: what it is, where it stood, the number of its symbol, reference or scope once it has one,
/// and what lies below it in reading order, `None` for a field that is not there.
pub struct Node {
    kind: NodeKind,
    span: Span,
    id: Option<u32>,
    children: Vec<Option<Node>>,
}

impl Drop for Node {
    fn drop(self) {
        let Node {
            kind: _,
            span: _,
            id: _,
            children: _,
        } = self;
    }
}

impl Model for Node {
    ghost use Rattle.js_syntax.specs.Node.{Tree, row};
    ghost use Rattle.js_syntax.specs.Code.{tree_code};

    ghost Value = { Tree };

    ghost coded = { tree_code };

    ghost view = { λ a. record { kind = a.kind; note = record { span = a.span; id = a.id }; below = row a.children.items } };

    ghost use Rattle.std.specs.Prelude.{◌+◌};
    ghost use Rattle.std.proofs.Common.{arith};
    ghost use Rattle.js_tree.specs.Weight.{tree_size, most_in_row};
    ghost use Rattle.js_tree.specs.declared.node.Node.TheShapes.{weighed-Node-children-at-1};

    ghost size = { tree_size };

    ghost size_decreases = { λ a h. Prim.omega (arith, most_in_row (λ x. weighed-Node-children-at-1.weight Tree (λ y. tree_size y + 1) x) (Prim.omega arith) (λ t. Prim.omega arith) a.children.items) };
}

impl Node {
    /// A node without an id.
    pub fn new(kind: NodeKind, span: Span, children: Vec<Option<Node>>) -> Node
        ensures { result ≡ record { kind = kind; note = record { span = span; id = None }; below = row children.items } }
    {
        Node {
            kind,
            span,
            id: None,
            children,
        }
    }

    pub fn kind(&self) -> &NodeKind
        ensures { result.now ≡ self.now.kind }
    {
        &self.kind
    }

    pub fn span(&self) -> Span
        ensures { result ≡ self.now.note.span }
    {
        self.span
    }

    pub fn id(&self) -> Option<u32>
        ensures { result ≡ self.now.note.id }
    {
        self.id
    }

    /// What lies below, in reading order.
    pub fn children(&self) -> &[Option<Node>]
        ensures { row result.now ≡ self.now.below }
    {
        self.children.as_slice()
    }

    pub fn into_children(self) -> Vec<Option<Node>>
        ensures { row result.items ≡ self.below }
    {
        let Node {
            kind: _,
            span: _,
            id: _,
            children,
        } = self;
        children
    }

    /// Puts these children in the place of those that are there, which it answers.
    pub fn replace_children(&mut self, children: Vec<Option<Node>>) -> Vec<Option<Node>>
        ensures kind { self.new.kind ≡ self.old.kind }
        ensures note { self.new.note ≡ self.old.note }
        ensures below { self.new.below ≡ row children.items }
        ensures taken { row result.items ≡ self.old.below }
    {
        replace(&mut self.children, children)
    }

    /// Gives the node the number of its symbol, reference or scope.
    pub fn set_id(&mut self, id: Option<u32>)
        ensures kind { self.new.kind ≡ self.old.kind }
        ensures span { self.new.note.span ≡ self.old.note.span }
        ensures id { self.new.note.id ≡ id }
        ensures below { self.new.below ≡ self.old.below }
    {
        self.id = id;
    }
}
