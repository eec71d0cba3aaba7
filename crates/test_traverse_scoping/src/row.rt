// A row: the walk of an empty module, and the calls on it.
use crate::every::append_every;
use crate::identifiers::append_identifier;
use crate::scopes::{Taken, append_call};
use js_scoping::build;
use js_syntax::{NodeKind, SPAN, SourceType};
use js_traverse::TraverseScoping;
use js_tree::{Node, Program, count_nodes};
use scope_table::Scoping;
use std::alloc::{AllocError, Global};

fn empty_module(alloc: Global) -> Result<Program, AllocError> {
    let list = Node::new(NodeKind::Statements, SPAN, Vec::new(alloc));
    let mut children = Vec::new(alloc);
    children.push(Some(list))?;
    Ok(Program::new(Node::new(NodeKind::Program(SourceType::Module), SPAN, children)))
}

// Its table; a tree of so few nodes is never too large.
fn table_of_empty_module(alloc: Global) -> Result<Scoping, AllocError> {
    let mut program = empty_module(alloc)?;
    if count_nodes(&program, 100) >= 100 {
        return Err(AllocError);
    }
    build(alloc, &mut program)
}

fn append_answer(
    alloc: Global,
    traverse: &mut TraverseScoping,
    call: &str,
    printed: &mut String,
) -> Result<(), AllocError> {
    let (word, text) = match call.split_once('=') {
        Some((word, text)) => (word, text),
        None => (call, ""),
    };
    let taken = Taken::of(text);
    if append_call(alloc, traverse, word, taken, printed)? {
        return Ok(());
    }
    if append_every(alloc, traverse, word, taken, printed)? {
        return Ok(());
    }
    if append_identifier(alloc, traverse, word, taken, printed)? {
        return Ok(());
    }
    printed.push_str(" not a call")
}

/// A row, with the answers to its calls behind it.
pub(crate) fn append_answers(
    alloc: Global,
    row: &str,
    printed: &mut String,
) -> Result<(), AllocError> {
    write!(printed, "{row}:")?;
    let mut traverse = TraverseScoping::new(table_of_empty_module(alloc)?);
    for call in row.split(' ') {
        append_answer(alloc, &mut traverse, call, printed)?;
    }
    Ok(())
}
