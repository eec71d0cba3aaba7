// The answers to rows.
use js_scoping::build;
use js_syntax::{Ident, NodeKind, SPAN, ScopeId, SourceType};
use js_tree::{Node, Program, count_nodes};
use json_read::read_tree;
use min_context::{
    CompressionMode, MinifierState, MinifierTraverseCtx, ReusableMinifierTraverseCtx,
};
use min_options::CompressOptions;
use scope_table::{ReferenceFlags, Scoping, SymbolFlags};
use std::alloc::{AllocError, Global};
use std::mem::replace;
use symbol_sets::SymbolSet;

// No program of a row has more nodes.
const MOST: u32 = 1000;

fn append_changes(
    ctx: &ReusableMinifierTraverseCtx,
    printed: &mut String,
) -> Result<(), AllocError> {
    let changes = ctx.get().pass_changes();
    for reference in changes.removed_references().ones() {
        write!(printed, " {reference}")?;
    }
    let (eval, asked) = (changes.direct_eval_dropped(), changes.revisit_requested());
    writeln!(printed, " eval {eval} asked {asked}")
}

// A fresh name that is made of a node.
fn append_fresh(
    ctx: &mut MinifierTraverseCtx,
    node: &Node,
    printed: &mut String,
) -> Result<(), AllocError> {
    if ctx.scoping().symbols_len() > MOST as usize || ctx.scoping().scopes_len() == 0 {
        return Ok(());
    }
    let flags = SymbolFlags::FunctionScopedVariable;
    let bound = ctx.generate_uid_based_on_node(node, ScopeId(0), flags)?;
    let symbol = bound.symbol_id.0;
    write!(printed, " {} {symbol}", bound.name.as_str())
}

// A reference to a name that nothing declares.
fn append_unbound(
    ctx: &mut MinifierTraverseCtx,
    name: &str,
    printed: &mut String,
) -> Result<(), AllocError> {
    if ctx.scoping().references_len() > MOST as usize {
        return Ok(());
    }
    let name = Ident::new(String::from_str(ctx.alloc(), name)?);
    let node = ctx.create_unbound_ident_expr(SPAN, name, ReferenceFlags::Read)?;
    let is_global = ctx.is_global_reference(&node);
    match node.id() {
        Some(id) => writeln!(printed, " {id} global {is_global}"),
        None => writeln!(printed, " none"),
    }
}

fn append_names(
    ctx: &mut ReusableMinifierTraverseCtx,
    node: &Node,
    printed: &mut String,
) -> Result<(), AllocError> {
    append_fresh(ctx.get_mut(), node, printed)?;
    append_fresh(ctx.get_mut(), node, printed)?;
    append_unbound(ctx.get_mut(), "y", printed)
}

// The statement becomes empty by a closure that marks nothing.
fn empty_unmarked(
    ctx: &mut ReusableMinifierTraverseCtx,
    node: &mut Node,
) -> Result<(), AllocError> {
    let alloc = ctx.get().alloc();
    ctx.get_mut().replace_statement_with(node, |_old, _ctx| {
        Ok(Node::new(NodeKind::EmptyStatement, SPAN, Vec::new(alloc)))
    })
}

fn append_kept(
    ctx: &mut ReusableMinifierTraverseCtx,
    node: &mut Node,
    printed: &mut String,
) -> Result<(), AllocError> {
    empty_unmarked(ctx, node)?;
    let is_empty = matches!(node.kind(), NodeKind::EmptyStatement);
    write!(printed, " empty {is_empty}")?;
    append_changes(ctx, printed)
}

fn append_dropped(
    ctx: &mut ReusableMinifierTraverseCtx,
    node: &Node,
    printed: &mut String,
) -> Result<(), AllocError> {
    ctx.get_mut().drop_statement(node);
    append_changes(ctx, printed)
}

fn append_about(
    ctx: &mut ReusableMinifierTraverseCtx,
    question: &str,
    node: &mut Node,
    printed: &mut String,
) -> Result<(), AllocError> {
    write!(printed, "{question}:")?;
    match question {
        "name" => append_names(ctx, node, printed),
        "drop" => append_dropped(ctx, node, printed),
        "keep" => append_kept(ctx, node, printed),
        _ => writeln!(printed, " no question"),
    }
}

fn context_of(alloc: Global, scoping: Scoping) -> Result<ReusableMinifierTraverseCtx, AllocError> {
    let options = CompressOptions::dce(alloc).try_clone(alloc)?;
    let mode = CompressionMode::TreeShakeOnly;
    let state = MinifierState::new(alloc, SourceType::Module, options, mode, &scoping)?;
    Ok(ReusableMinifierTraverseCtx::new(alloc, state, scoping))
}

// The first statement of a program's list.
fn append_first(
    ctx: &mut ReusableMinifierTraverseCtx,
    question: &str,
    root: &mut Node,
    printed: &mut String,
) -> Result<(), AllocError> {
    let alloc = ctx.get().alloc();
    let mut lists = root.replace_children(Vec::new(alloc));
    if let Some(Some(list)) = lists.first_mut() {
        let mut items = list.replace_children(Vec::new(alloc));
        if let Some(Some(node)) = items.first_mut() {
            append_about(ctx, question, node, printed)?;
        }
    }
    Ok(())
}

fn append_of(
    alloc: Global,
    question: &str,
    program: &mut Program,
    printed: &mut String,
) -> Result<(), AllocError> {
    if count_nodes(program, MOST) > MOST as usize {
        return writeln!(printed, "too large");
    }
    let scoping = build(alloc, program)?;
    let mut ctx = context_of(alloc, scoping)?;
    let empty = Program::new(Node::new(NodeKind::EmptyStatement, SPAN, Vec::new(alloc)));
    let mut root = replace(program, empty).into_root();
    append_first(&mut ctx, question, &mut root, printed)
}

/// What is printed for a row.
pub(crate) fn append_answer(
    alloc: Global,
    question: &str,
    tree: &str,
    printed: &mut String,
) -> Result<(), AllocError> {
    match read_tree(alloc, tree.as_bytes()) {
        Ok(mut program) => append_of(alloc, question, &mut program, printed),
        Err(_) => writeln!(printed, "no tree"),
    }
}
