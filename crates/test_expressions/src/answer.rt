// The answers to rows.
use crate::question::append_about;
use crate::rebuilt::append_needed;
use js_scoping::build;
use js_syntax::{NodeKind, SourceType};
use js_tree::{Node, Program, count_nodes};
use json_read::read_tree;
use min_context::{
    CompressionMode, MinifierState, MinifierTraverseCtx, ReusableMinifierTraverseCtx,
};
use min_options::CompressOptions;
use scope_table::Scoping;
use std::alloc::{AllocError, Global};

// No program of a row has more nodes.
const MOST: u32 = 1000;

fn append_expression(
    question: &str,
    statement: &Node,
    ctx: &MinifierTraverseCtx,
    printed: &mut String,
) -> Result<(), AllocError> {
    let NodeKind::ExpressionStatement = statement.kind() else {
        return Ok(());
    };
    match statement.children().first() {
        Some(Some(node)) => append_about(question, node, ctx, printed),
        _ => Ok(()),
    }
}

// Of the statements of a list.
fn append_each(
    question: &str,
    list: &Node,
    ctx: &MinifierTraverseCtx,
    printed: &mut String,
) -> Result<(), AllocError> {
    for item in list.children() {
        if let Some(statement) = item {
            append_expression(question, statement, ctx, printed)?;
        }
    }
    Ok(())
}

fn append_statement(
    question: &str,
    statement: &Node,
    ctx: &MinifierTraverseCtx,
    printed: &mut String,
) -> Result<(), AllocError> {
    let NodeKind::BlockStatement = statement.kind() else {
        return append_expression(question, statement, ctx, printed);
    };
    match statement.children().first() {
        Some(Some(list)) => append_each(question, list, ctx, printed),
        _ => Ok(()),
    }
}

fn append_list(
    question: &str,
    list: &Node,
    ctx: &MinifierTraverseCtx,
    printed: &mut String,
) -> Result<(), AllocError> {
    for item in list.children() {
        if let Some(statement) = item {
            append_statement(question, statement, ctx, printed)?;
        }
    }
    Ok(())
}

fn append_program(
    question: &str,
    root: &Node,
    ctx: &MinifierTraverseCtx,
    printed: &mut String,
) -> Result<(), AllocError> {
    write!(printed, "{question}:")?;
    if let Some(Some(list)) = root.children().first() {
        append_list(question, list, ctx, printed)?;
    }
    writeln!(printed, "")
}

fn source_type_of(root: &Node) -> SourceType {
    match root.kind() {
        NodeKind::Program(source_type) => *source_type,
        _ => SourceType::Module,
    }
}

fn context_of(
    alloc: Global,
    source_type: SourceType,
    scoping: Scoping,
) -> Result<ReusableMinifierTraverseCtx, AllocError> {
    let options = CompressOptions::dce(alloc).try_clone(alloc)?;
    let mode = CompressionMode::TreeShakeOnly;
    let state = MinifierState::new(alloc, source_type, options, mode, &scoping)?;
    Ok(ReusableMinifierTraverseCtx::new(alloc, state, scoping))
}

fn append_of(
    alloc: Global,
    question: &str,
    program: &mut Program,
    printed: &mut String,
) -> Result<(), AllocError> {
    if count_nodes(program, MOST) > MOST as usize {
        return writeln!(printed, "too large");
    }
    let scoping = build(alloc, program)?;
    let root = program.root();
    let mut ctx = context_of(alloc, source_type_of(root), scoping)?;
    if question == "needed" {
        append_needed(root, ctx.get_mut(), printed)
    } else {
        append_program(question, root, ctx.get(), printed)
    }
}

/// What is printed for a row.
pub(crate) fn append_answer(
    alloc: Global,
    question: &str,
    tree: &str,
    printed: &mut String,
) -> Result<(), AllocError> {
    match read_tree(alloc, tree.as_bytes()) {
        Ok(mut program) => append_of(alloc, question, &mut program, printed),
        Err(_) => writeln!(printed, "no tree"),
    }
}
