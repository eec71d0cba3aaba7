// What is left of a tree.
ghost use Rattle.std.specs.Prelude.{◌≡◌, map, not, filter, IfOk};
ghost use Rattle.js_syntax.specs.Node.{forest_of};
ghost use Rattle.min_pass.specs.Pass.{is_empty_in, cleared};
ghost use Rattle.min_pass.specs.Sweep.{goes_from, swept_node, swept_child};

use crate::around::{Row, row_below};
use js_tree::{Node, NodeKind, Program};
use std::alloc::{AllocError, Global};

// Whether a node of a row goes.
fn is_empty_in(row: Row, node: &Node) -> bool
    ensures { result ≡ is_empty_in row node.now.kind }
{
    match row {
        Row::Items => matches!(node.kind(), NodeKind::EmptyStatement),
        Row::OfItem | Row::Declarators | Row::Other => false,
    }
}

fn goes_from(row: Row, child: &Option<Node>) -> bool
    ensures { result ≡ goes_from row child.now }
{
    match child {
        Some(node) => is_empty_in(row, node),
        None => false,
    }
}

// Those that go leave a row.
fn keep(row: Row, children: &mut Vec<Option<Node>>)
    ensures { children.new.items ≡ filter (λ x. not (goes_from row x)) children.old.items }
{
    children.retain(|child| !goes_from(row, child));
}

// What goes below a node leaves. The recursion goes as deep as the tree. A vector without items takes no memory.
#[cycle(sweep)]
fn sweep_node(alloc: Global, around: Row, node: &mut Node)
    ensures { node.new ≡ swept_node around node.old }
{
    let below = row_below(around, node.kind());
    let mut children = node.replace_children(Vec::new(alloc));
    keep(below, &mut children);
    sweep_children(alloc, below, children.as_mut_slice());
    node.replace_children(children);
}

#[cycle(sweep)]
fn sweep_child(alloc: Global, around: Row, child: &mut Option<Node>)
    ensures { child.new ≡ swept_child around child.old }
{
    if let Some(node) = child {
        sweep_node(alloc, around, node);
    }
}

// The same of each node of a row.
#[cycle(sweep)]
fn sweep_children(alloc: Global, around: Row, children: &mut [Option<Node>])
    ensures { children.new ≡ map (swept_child around) children.old }
{
    for child in children.iter_mut() {
        sweep_child(alloc, around, child);
    }
}

/// Takes the empty statements out of a program's lists, where they stand. The recursion goes as deep as the tree.
pub fn clear_program(alloc: Global, program: Program) -> Result<Program, AllocError>
    ensures left { IfOk result (λ p. forest_of p ≡ cleared (forest_of program)) }
{
    let mut root = program.into_root();
    sweep_node(alloc, Row::Other, &mut root);
    Ok(Program::new(root))
}
