// The first node of a program of which runs say nothing.
ghost use Rattle.std.specs.Prelude.{◌≡◌, ◌+◌, ◌<◌, ◌^◌, IfOk, IfErr, Some, None};
ghost use Rattle.js_syntax.specs.Node.{forest_of, row};
ghost use Rattle.js_tree.specs.Count.{node_count};
ghost use Rattle.run_covered.specs.Covered.{first_in, first_outside};

use crate::is_core;
use js_syntax::{NodeKind, SourceType};
use js_tree::{Node, Program, count_of_kind};

// The place behind a row, of which all nodes are of the core, or that of the first which isn't. The recursion goes as
// deep as the trees.
fn look(place: u32, nodes: &[Option<Node>]) -> Result<u32, u32>
    requires fits { place + node_count (row nodes.now) < 2 ^ 32 }
    ensures none { IfOk result (λ _. first_in place (row nodes.now) ≡ None) }
    ensures next { IfOk result (λ next. next ≡ place + node_count (row nodes.now)) }
    ensures first { IfErr result (λ first. first_in place (row nodes.now) ≡ Some first) }
{
    let mut next = place;
    for node in nodes {
        if let Some(node) = node {
            if !is_core(node.kind()) {
                return Err(next);
            }
            next = look(next + count_of_kind(node.kind()), node.children())?;
        }
    }
    Ok(next)
}

fn first_below(root: &Node) -> Option<u32>
    requires fits { node_count (forest_of root.now) < 2 ^ 32 }
    ensures exact { result ≡ first_in 0 (forest_of root.now) }
{
    if !is_core(root.kind()) {
        return Some(0);
    }
    look(count_of_kind(root.kind()), root.children()).err()
}

/// The place of the first node of a program that is not of the core of the language, if there is one: the number of
/// nodes before it, lists not counted. It is 0 for a program that is no module. The recursion goes as deep as the tree.
pub fn first_outside(program: &Program) -> Option<u32>
    requires fits { node_count (forest_of program.now) < 2 ^ 32 }
    ensures exact { result ≡ first_outside (forest_of program.now) }
{
    let root = program.root();
    match root.kind() {
        NodeKind::Program(SourceType::Module) => first_below(root),
        _ => Some(0),
    }
}
