// A list of statements, and the empty ones among them.
ghost use Rattle.std.specs.Prelude.{◌≡◌};
ghost use Rattle.js_syntax.specs.Node.{row};
ghost use Rattle.test_traverse.specs.Bodies as bodies;

use js_syntax::NodeKind;
use js_tree::Node;

fn is_empty(node: &Node) -> bool
    ensures { result ≡ bodies.is_empty node.now.kind node.now.below }
{
    match node.kind() {
        NodeKind::EmptyStatement => node.children().is_empty(),
        _ => false,
    }
}

fn is_empty_place(child: &Option<Node>) -> bool
    ensures { result ≡ bodies.is_empty_place child.now }
{
    match child {
        Some(node) => is_empty(node),
        None => false,
    }
}

/// Whether one of them is empty.
pub(crate) fn has_empty(children: &[Option<Node>]) -> bool
    ensures { result ≡ bodies.has_empty (row children.now) }
{
    for child in children {
        if is_empty_place(child) {
            return true;
        }
    }
    false
}

/// Takes the empty ones out.
pub(crate) fn keep_others(children: &mut Vec<Option<Node>>)
    ensures { row children.new.items ≡ bodies.without_empty (row children.old.items) }
{
    children.retain(|child| !is_empty_place(child));
}
