// The walks that count.
ghost use Rattle.std.specs.Prelude.{◌≡◌, ◌-◌, ◌+◌, ◌^◌, ◌<◌, ◌≤◌, min};
ghost use Rattle.js_syntax.specs.Node.{forest_of, row};
ghost use Rattle.js_tree.specs.Count.{one_each, node_count, levels, levels_at};

use crate::count_kind::{lower_by, own_count};
use crate::{Node, NodeKind, Program};

/// How many nodes a program has, or `limit + 1` where it has more. The recursion goes as deep as the
/// tree: ask `depth` first of a program that may be too deep for the stack.
pub fn count_nodes(program: &Program, limit: u32) -> usize
    ensures exact { result ≡ min (node_count (forest_of program.now)) (limit + 1) }
{
    let most = limit as usize + 1;
    most - take_nodes(program.root(), most)
}

/// How many levels of nodes a program has, or `limit + 1` where it has more. The recursion goes no
/// deeper than the limit, but for lists, which add no level.
pub fn depth(program: &Program, limit: u32) -> usize
    ensures exact { result ≡ min (levels (forest_of program.now)) (limit + 1) }
{
    levels_within(program.root(), 0, limit as usize)
}

// What remains of `left` once one is taken for each node of a tree.
fn take_nodes(node: &Node, left: usize) -> usize
    ensures { result ≡ left - node_count (forest_of node.now) }
{
    let mut rest = left.saturating_sub(own_count(node.kind()));
    let children = node.children();
    for child in children {
        if rest == 0 {
            return 0;
        }
        if let Some(child) = child {
            rest = take_nodes(child, rest);
        }
    }
    rest
}

// How many levels a tree has, where its node stands `more` levels lower than usual.
fn levels_within(node: &Node, more: usize, limit: usize) -> usize
    requires few { limit < 2 ^ 32 }
    requires near { more ≤ 1 }
    ensures { result ≡ min (levels_at (λ _. more) 0 (forest_of node.now)) (limit + 1) }
{
    let kind = node.kind();
    let own = more + own_count(kind);
    if own > limit {
        return limit + 1;
    }
    let left = limit - own;
    let mut deepest = 0;
    let children = node.children();
    for (at, child) in children.iter().enumerate() {
        if deepest > left {
            return limit + 1;
        }
        if let Some(child) = child {
            deepest = levels_within(child, lower_by(kind, at), left).max(deepest);
        }
    }
    own + deepest
}

/// The place of what stands behind a row of nodes, where a place is the number of nodes before a node in
/// order of places, lists not counted. The recursion goes as deep as the trees.
pub fn place_behind(place: u32, nodes: &[Option<Node>]) -> u32
    requires fits { place + node_count (row nodes.now) < 2 ^ 32 }
    ensures behind { result ≡ place + node_count (row nodes.now) }
{
    let mut next = place;
    for node in nodes {
        if let Some(node) = node {
            next = place_behind(next + own_count(node.kind()) as u32, node.children());
        }
    }
    next
}

/// How a node of this kind is counted: 1, but 0 for a list.
pub fn count_of_kind(kind: &NodeKind) -> u32
    ensures own { result ≡ one_each kind.now }
{
    own_count(kind) as u32
}
