// Copies of nodes, each with all that lies below it.
ghost use Rattle.std.specs.Prelude.{◌≡◌, IfOk};

use crate::kind::clone_kind;
use js_tree::{Node, Program};
use std::alloc::{AllocError, Global};

/// A copy of a program, spans and ids included. The only error is want of memory.
pub fn try_clone(alloc: Global, program: &Program) -> Result<Program, AllocError>
    ensures equal { IfOk result (λ p. p ≡ program.now) }
{
    Ok(Program::new(clone_node(alloc, program.root())?))
}

/// A copy of a node with all that lies below it, spans and ids included. The recursion goes as deep as
/// the tree. The only error is want of memory.
pub fn clone_node(alloc: Global, node: &Node) -> Result<Node, AllocError>
    ensures equal { IfOk result (λ n. n ≡ node.now) }
{
    let mut copies = Vec::new(alloc);
    let children = node.children();
    for child in children {
        let copy = match child {
            Some(child) => Some(clone_node(alloc, child)?),
            None => None,
        };
        copies.push(copy)?;
    }
    let mut copy = Node::new(clone_kind(alloc, node.kind())?, node.span(), copies);
    copy.set_id(node.id());
    Ok(copy)
}
