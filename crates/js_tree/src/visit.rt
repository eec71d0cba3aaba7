// Walks over trees.
ghost use Rattle.std.specs.Prelude.{◌≡◌, Bool};
ghost use Rattle.js_syntax.specs.Node.{Tree, forest_of, row};
ghost use Rattle.js_tree.specs.Walk.{is_list, Walks};

use crate::{Node, Program};
use js_syntax::NodeKind;

/// Who visits the nodes of a tree. A visitor matches on the kinds of nodes that it looks for, and
/// answers true for all others.
pub trait Visit {
    /// What a visit of a tree with this answer makes of the visitor.
    ghost visits: { Self → Tree → Bool → Self → Type 0 };

    /// Visits a node, and answers whether to walk on to what lies below it. It doesn't walk itself.
    fn visit(&mut self, node: &Node) -> bool
        ensures { visits self.old node.now result self.new };
}

fn is_list(kind: &NodeKind) -> bool
    ensures { result ≡ is_list kind.now }
{
    match kind {
        NodeKind::Statements
        | NodeKind::Cases
        | NodeKind::Declarators
        | NodeKind::Parameters
        | NodeKind::Members
        | NodeKind::Elements
        | NodeKind::Properties
        | NodeKind::Expressions
        | NodeKind::Arguments
        | NodeKind::Quasis
        | NodeKind::Specifiers => true,
        _ => false,
    }
}

/// Walks over a node and all that lies below it: each node once, in order of places, and none below a
/// node that was answered false. The recursion goes as deep as the tree.
#[cycle(walk)]
pub fn walk_node<V: Visit>(visitor: &mut V, node: &Node)
    ensures walks { Walks V.visits (forest_of node.now) visitor.old visitor.new }
{
    if is_list(node.kind()) || visitor.visit(node) {
        walk_children(visitor, node.children());
    }
}

#[cycle(walk)]
fn walk_children<V: Visit>(visitor: &mut V, children: &[Option<Node>])
    ensures { Walks V.visits (row children.now) visitor.old visitor.new }
{
    for child in children {
        if let Some(node) = child {
            walk_node(visitor, node);
        }
    }
}

/// Walks over a whole program.
pub fn walk_program<V: Visit>(visitor: &mut V, program: &Program)
    ensures walks { Walks V.visits (forest_of program.now) visitor.old visitor.new }
{
    walk_node(visitor, program.root());
}
