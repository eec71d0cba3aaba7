// The marks of nodes.
use crate::answer::{MOST, append_number};
use crate::sites::append_sites;
use js_tree::{Node, NodeKind, Program, SPAN, count_nodes};
use scope_walk::mark_nodes;
use std::alloc::{AllocError, Global};
use std::mem::replace;

// A name with its mark, or another node that has one.
fn append_mark(node: &Node, printed: &mut String) -> Result<(), AllocError> {
    match node.kind() {
        NodeKind::BindingName(name) => {
            let name = name.as_str();
            write!(printed, ", declared {name}")?;
            append_number(node.id(), printed)
        }
        NodeKind::ReferenceName(name) | NodeKind::TargetName(name) => {
            let name = name.as_str();
            write!(printed, ", used {name}")?;
            append_number(node.id(), printed)
        }
        _ => match node.id() {
            Some(mark) => write!(printed, ", scope {mark}"),
            None => Ok(()),
        },
    }
}

// The recursion goes as deep as the tree.
fn append_marks_of(nodes: &[Option<Node>], printed: &mut String) -> Result<(), AllocError> {
    for node in nodes {
        if let Some(node) = node {
            append_mark(node, printed)?;
            append_marks_of(node.children(), printed)?;
        }
    }
    Ok(())
}

/// The names of a program with their marks, and its other nodes that have one, in order of places.
pub(crate) fn append_marks(program: &Program, printed: &mut String) -> Result<(), AllocError> {
    let root = program.root();
    write!(printed, "marks")?;
    append_mark(root, printed)?;
    append_marks_of(root.children(), printed)?;
    writeln!(printed, "")
}

fn symbols_of(alloc: Global, words: &str) -> Result<Vec<u32>, AllocError> {
    let mut symbols = Vec::new(alloc);
    for word in words.split(' ') {
        if let Ok(symbol) = word.parse::<u32>() {
            symbols.push(symbol)?;
        }
    }
    Ok(symbols)
}

/// The marks of a program whose declared names have these symbols, and its sites.
pub(crate) fn append_marked(
    alloc: Global,
    symbols: &str,
    program: &mut Program,
    printed: &mut String,
) -> Result<(), AllocError> {
    if count_nodes(program, MOST) > MOST as usize {
        return writeln!(printed, "too large");
    }
    let symbols = symbols_of(alloc, symbols)?;
    mark_nodes(alloc, program, symbols.as_slice());
    append_marks(program, printed)?;
    append_sites(alloc, program, printed)
}

// ---- another mark

// Gives a mark to the node at a path from this one: each number is how many children stand before the next node. The
// recursion goes as deep as the path.
fn set_mark(alloc: Global, node: &mut Node, path: &[usize], mark: Option<u32>) {
    match path {
        [] => node.set_id(mark),
        [at, rest @ ..] => {
            let mut below = node.replace_children(Vec::new(alloc));
            match below.get_mut(*at) {
                Some(Some(child)) => set_mark(alloc, child, rest, mark),
                _ => {}
            }
            node.replace_children(below);
        }
    }
}

/// Gives a mark to the node at a path from the root of a program.
pub(crate) fn mark_at(alloc: Global, program: &mut Program, path: &[usize], mark: Option<u32>) {
    let nothing = Node::new(NodeKind::EmptyStatement, SPAN, Vec::new(alloc));
    let mut root = replace(program, Program::new(nothing)).into_root();
    set_mark(alloc, &mut root, path, mark);
    *program = Program::new(root);
}
