// What is made of an expression.
use crate::question::word_of;
use js_syntax::{NodeKind, SPAN, SourceType};
use js_tree::{Node, Program};
use js_tree_copy::clone_node;
use json_write::write_tree;
use min_context::MinifierTraverseCtx;
use min_expressions::{PeepholeOptimizations, has_spread};
use std::alloc::{AllocError, Global};

fn one_field(alloc: Global, node: Node) -> Result<Vec<Option<Node>>, AllocError> {
    let mut fields = Vec::new(alloc);
    fields.push(Some(node))?;
    Ok(fields)
}

// The text of a module of an expression.
fn append_text(alloc: Global, expression: Node, printed: &mut String) -> Result<(), AllocError> {
    let fields = one_field(alloc, expression)?;
    let statement = Node::new(NodeKind::ExpressionStatement, SPAN, fields);
    let items = one_field(alloc, statement)?;
    let list = one_field(alloc, Node::new(NodeKind::Statements, SPAN, items))?;
    let program = Program::new(Node::new(NodeKind::Program(SourceType::Module), SPAN, list));
    let text = write_tree(alloc, &program)?;
    let text = text.as_str();
    write!(printed, " {text}")
}

pub(crate) fn append_zero(
    node: &Node,
    ctx: &MinifierTraverseCtx,
    printed: &mut String,
) -> Result<(), AllocError> {
    let alloc = ctx.alloc();
    let mut behind = clone_node(alloc, node)?;
    PeepholeOptimizations::preserve_indirect_access(&mut behind, ctx)?;
    append_text(alloc, behind, printed)?;
    let mut left = clone_node(alloc, node)?;
    PeepholeOptimizations::preserve_indirect_access_if_needed(&mut left, ctx)?;
    append_text(alloc, left, printed)
}

fn append_left(arguments: &[Option<Node>], printed: &mut String) -> Result<(), AllocError> {
    for argument in arguments {
        match argument {
            Some(node) => match word_of(node) {
                Some(word) => write!(printed, " {word}")?,
                None => write!(printed, " ?")?,
            },
            None => write!(printed, " none")?,
        }
    }
    write!(printed, ";")
}

fn copies(alloc: Global, children: &[Option<Node>]) -> Result<Vec<Option<Node>>, AllocError> {
    let mut copies = Vec::new(alloc);
    for child in children {
        if let Some(node) = child {
            copies.push(Some(clone_node(alloc, node)?))?;
        }
    }
    Ok(copies)
}

fn append_arguments(
    list: &Node,
    ctx: &mut MinifierTraverseCtx,
    printed: &mut String,
) -> Result<(), AllocError> {
    let mut arguments = copies(ctx.alloc(), list.children())?;
    if has_spread(arguments.as_slice()) {
        return write!(printed, " spread;");
    }
    PeepholeOptimizations::fold_arguments_into_needed_expressions(&mut arguments, ctx);
    append_left(arguments.as_slice(), printed)
}

// Of a statement of a call.
fn append_call(
    statement: &Node,
    ctx: &mut MinifierTraverseCtx,
    printed: &mut String,
) -> Result<(), AllocError> {
    match statement.children().first() {
        Some(Some(call)) => match call.children() {
            [_, Some(list)] => append_arguments(list, ctx, printed),
            _ => write!(printed, " no call;"),
        },
        _ => write!(printed, " no call;"),
    }
}

/// What is left of the arguments of each call of a list.
pub(crate) fn append_needed(
    root: &Node,
    ctx: &mut MinifierTraverseCtx,
    printed: &mut String,
) -> Result<(), AllocError> {
    write!(printed, "needed:")?;
    if let Some(Some(list)) = root.children().first() {
        for item in list.children() {
            if let Some(statement) = item {
                append_call(statement, ctx, printed)?;
            }
        }
    }
    writeln!(printed, "")
}
