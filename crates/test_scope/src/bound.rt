// The names of a pattern.
use crate::answer::{MOST, append_number};
use js_scoping::build;
use js_tree::{Node, NodeKind, Program, bound_names, count_nodes};
use std::alloc::{AllocError, Global};

// The pattern of the first declarator of a program's first statement: the node five levels below the program, each the first of
// its row, or the last of them that is there.
fn pattern(program: &Program) -> &Node {
    let mut node = program.root();
    for _ in 0..5 {
        match node.children() {
            [Some(child), ..] => node = child,
            _ => return node,
        }
    }
    node
}

fn append_identifier(node: &Node, printed: &mut String) -> Result<(), AllocError> {
    let NodeKind::BindingName(name) = node.kind() else {
        return write!(printed, ", no name");
    };
    let name = name.as_str();
    let (start, end) = (node.span().start, node.span().end);
    write!(printed, ", {name} at {start} {end} symbol")?;
    append_number(node.id(), printed)
}

fn append_identifiers(
    alloc: Global,
    pattern: &Node,
    printed: &mut String,
) -> Result<(), AllocError> {
    write!(printed, "bound")?;
    for node in bound_names(alloc, pattern)? {
        append_identifier(node, printed)?;
    }
    writeln!(printed, "")
}

/// The names of a program's first pattern, each with its place and the symbol that it is marked with.
pub(crate) fn append_bound(
    alloc: Global,
    program: &mut Program,
    printed: &mut String,
) -> Result<(), AllocError> {
    if count_nodes(program, MOST) > MOST as usize {
        return writeln!(printed, "too large");
    }
    build(alloc, program)?;
    append_identifiers(alloc, pattern(program), printed)
}
