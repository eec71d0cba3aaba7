// The nodes below a node, by their places.
ghost use Rattle.std.specs.Prelude.{◌≡◌, ◌-◌};
ghost use Rattle.std.specs.Option.{option_map};
ghost use Rattle.js_syntax.specs.Node.{row, forest_of};
ghost use Rattle.js_effects.specs.Each.{child_of, inner_at, width, is_parenthesized};

use js_syntax::NodeKind;
use js_tree::Node;

#[tactic(auto, using(crate::proofs::Children::child_there, crate::proofs::Children::child_past))]
fn child_at(children: &[Option<Node>], at: usize) -> Option<&Node>
    ensures { option_map (λ n. n.now) result ≡ child_of (row children.now) at }
{
    if at < children.len() {
        match &children[at] {
            Some(node) => Some(node),
            None => None,
        }
    } else {
        None
    }
}

/// What stands at a place below a node.
pub(crate) fn child(node: &Node, at: usize) -> Option<&Node>
    ensures { option_map (λ n. n.now) result ≡ child_of node.now.below at }
{
    child_at(node.children(), at)
}

#[tactic(auto, using(crate::proofs::Children::row_width))]
/// The place of what stands last below a node; 0, where nothing does.
pub(crate) fn last_place(node: &Node) -> usize
    ensures { result ≡ width node.now.below - 1 }
{
    let width = node.children().len();
    if width == 0 { 0 } else { width - 1 }
}

fn is_parenthesized(kind: &NodeKind) -> bool
    ensures { result ≡ is_parenthesized kind.now }
{
    matches!(kind, NodeKind::ParenthesizedExpression)
}

/// A node, parentheses aside.
#[cycle(inner)]
pub(crate) fn inner(node: &Node) -> Option<&Node>
    ensures { option_map (λ n. n.now) result ≡ inner_at 0 (forest_of node.now) }
{
    if is_parenthesized(node.kind()) {
        inner_child(node, 0)
    } else {
        Some(node)
    }
}

/// What stands at a place below a node, parentheses aside.
#[cycle(inner)]
pub(crate) fn inner_child(node: &Node, at: usize) -> Option<&Node>
    ensures { option_map (λ n. n.now) result ≡ inner_at at node.now.below }
{
    match child(node, at) {
        Some(child) => inner(child),
        None => None,
    }
}
