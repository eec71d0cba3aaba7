// The walk over two programs.
ghost use Rattle.std.specs.Prelude.{◌≡◌, ◌↔◌, ◌∷◌, [], IsTrue};
ghost use Rattle.js_syntax.specs.Node.{bare, forest_of, row};

use crate::kind::same_kind;
use js_tree::{Node, Program};

/// Whether two programs are the same but for spans and ids. The recursion goes as deep as the programs
/// agree.
pub fn content_eq(one: &Program, other: &Program) -> bool
    ensures same { IsTrue result ↔ (bare (forest_of one.now) ≡ bare (forest_of other.now)) }
{
    same_node(one.root(), other.root())
}

#[cycle(walk)]
fn same_node(one: &Node, other: &Node) -> bool
    ensures same { IsTrue result ↔ (bare (forest_of one.now) ≡ bare (forest_of other.now)) }
{
    if !same_kind(one.kind(), other.kind()) {
        return false;
    }
    let children = one.children();
    let others = other.children();
    if children.len() != others.len() {
        return false;
    }
    'children: for (at, child) in children.iter().enumerate() {
        if !same_child(child, &others[at]) {
            return false;
        }
    }
    true
}

// Whether two fields hold the same.
#[cycle(walk)]
fn same_child(one: &Option<Node>, other: &Option<Node>) -> bool
    ensures same { IsTrue result ↔ (bare (row (one.now ∷ [])) ≡ bare (row (other.now ∷ []))) }
{
    match (one, other) {
        (Some(one), Some(other)) => same_node(one, other),
        (None, None) => true,
        (Some(_), None) => false,
        (None, Some(_)) => false,
    }
}
