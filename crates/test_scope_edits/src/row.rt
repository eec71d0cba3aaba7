// A row: the table of an empty module, and the calls on it.
use crate::edit::append_edit;
use crate::table::append_table;
use js_scoping::{Scoping, build};
use js_tree::{Node, NodeKind, Program, SPAN, SourceType, count_nodes};
use std::alloc::{AllocError, Global};

fn empty_module(alloc: Global) -> Result<Program, AllocError> {
    let list = Node::new(NodeKind::Statements, SPAN, Vec::new(alloc));
    let mut children = Vec::new(alloc);
    children.push(Some(list))?;
    Ok(Program::new(Node::new(NodeKind::Program(SourceType::Module), SPAN, children)))
}

// Its table; a tree of so few nodes is never too large.
fn table_of(alloc: Global, program: &mut Program) -> Result<Scoping, AllocError> {
    if count_nodes(program, 100) >= 100 {
        return Err(AllocError);
    }
    build(alloc, program)
}

fn append_call(
    alloc: Global,
    program: &Program,
    scoping: &mut Scoping,
    call: &str,
    printed: &mut String,
) -> Result<(), AllocError> {
    if call == "refresh" {
        scoping.refresh_direct_eval_flags(program);
        return Ok(());
    }
    match call.split_once('=') {
        Some((word, taken)) => append_edit(alloc, scoping, word, taken, printed),
        None => append_table(scoping, call, printed),
    }
}

fn append_calls(
    alloc: Global,
    program: &mut Program,
    calls: &str,
    printed: &mut String,
) -> Result<(), AllocError> {
    let mut scoping = table_of(alloc, program)?;
    for call in calls.split(' ') {
        append_call(alloc, program, &mut scoping, call, printed)?;
    }
    Ok(())
}

/// A row, with the answers to its calls behind it.
pub(crate) fn append_answers(
    alloc: Global,
    row: &str,
    printed: &mut String,
) -> Result<(), AllocError> {
    write!(printed, "{row}:")?;
    let mut program = empty_module(alloc)?;
    append_calls(alloc, &mut program, row, printed)
}
