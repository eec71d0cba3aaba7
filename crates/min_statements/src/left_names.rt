// In a branch that isn't taken, a statement that declares names by `var`, and no others around it, becomes a declaration of these.
ghost use Rattle.std.specs.Prelude.{◌≡◌, Some, true, false, IfOk, OnErr};
ghost use Rattle.js_syntax.specs.Node.{row};
ghost use Rattle.scope_counts.specs.Counts.{ids};
ghost use Rattle.min_context.specs.Edited.{evals, Leaves};
ghost use Rattle.min_expressions.specs.Kept.{kept_if};
ghost use Rattle.min_traverse.specs.Lawful.{Does};
ghost use Rattle.steps.specs.KeepForm.Part.{leaves_names_of};
ghost use Rattle.rules.specs.Expressions.LeftNames.{leaves_names, names_of, with_names, row_leaves, branch_leaves, branch_named, name_if};
ghost use Rattle.min_statements.specs.LeftNames.{named_by_truth, named_among, named_at, row_gone, inside_gone, one_gone, gone_of, gone_at, item_leaves_names, names_of_item, named_item, named_child, named_of, put_there};

use crate::untaken::{is_list, runs_inside};
use crate::vars::{declares_vars_alone, has_vars, vars_bind_names};
use js_syntax::NodeKind;
use js_tree::Node;
use js_tree_copy::clone_node;
use kept_names::KeepVar;
use min_context::MinifierTraverseCtx;
use min_expressions::truth_given;
use std::alloc::{AllocError, Global};

// ---- one statement

fn leaves_names_of(kind: &NodeKind) -> bool
    ensures { result ≡ leaves_names_of kind.now }
{
    match kind {
        NodeKind::LabeledStatement(_)
        | NodeKind::IfStatement
        | NodeKind::WithStatement
        | NodeKind::WhileStatement
        | NodeKind::DoWhileStatement
        | NodeKind::ForStatement
        | NodeKind::ForInStatement
        | NodeKind::ForOfStatement
        | NodeKind::SwitchStatement
        | NodeKind::TryStatement => true,
        _ => false,
    }
}

// `listed` says whether it is an item of a list. Most statements declare nothing so, which is asked before what else they declare.
fn leaves_names(listed: bool, node: &Node) -> bool
    ensures { result ≡ leaves_names listed node.now.kind node.now.below }
{
    listed
        && (leaves_names_of(node.kind())
            && (has_vars(node.children())
                && (vars_bind_names(node.children()) && declares_vars_alone(node))))
}

fn names_of(alloc: Global, node: &Node) -> Result<Option<Node>, AllocError>
    ensures { IfOk result (λ y. y ≡ names_of node.now.kind node.now.note node.now.below) }
{
    let mut names = KeepVar::new(alloc);
    names.visit_statement(node)?;
    names.get_variable_declaration_statement()
}

fn item_leaves_names(listed: bool, item: &Option<Node>) -> bool
    ensures { result ≡ item_leaves_names listed item.now }
{
    match item {
        Some(node) => leaves_names(listed, node),
        None => false,
    }
}

fn names_of_item(alloc: Global, item: &Option<Node>) -> Result<Option<Node>, AllocError>
    ensures { IfOk result (λ y. y ≡ names_of_item item.now) }
{
    match item {
        Some(node) => names_of(alloc, node),
        None => Ok(None),
    }
}

// ---- whether there is one. The recursion goes as deep as the tree.

#[cycle(leaves)]
fn branch_leaves(node: &Node) -> bool
    ensures { result ≡ branch_leaves node.now.kind node.now.below }
{
    runs_inside(node.kind()) && row_leaves(is_list(node.kind()), node.children())
}

#[cycle(leaves)]
fn row_leaves(listed: bool, children: &[Option<Node>]) -> bool
    ensures { result ≡ row_leaves listed (row children.now) }
{
    let mut rest = children;
    while let [first, others @ ..] = rest {
        if let Some(node) = first {
            if leaves_names(listed, node) {
                return true;
            }
            if branch_leaves(node) {
                return true;
            }
        }
        rest = others;
    }
    false
}

// ---- which branch

fn index_where(holds: bool, at: usize) -> Option<usize>
    ensures { result ≡ kept_if holds at }
{
    if holds { Some(at) } else { None }
}

fn named_consequent(branches: &[Option<Node>]) -> Option<usize>
    ensures { result ≡ named_by_truth (Some false) (row branches.now) }
{
    match branches {
        [Some(consequent), ..] => index_where(branch_leaves(consequent), 1),
        [None, ..] => None,
        [] => None,
    }
}

fn named_alternate(branches: &[Option<Node>]) -> Option<usize>
    ensures { result ≡ named_by_truth (Some true) (row branches.now) }
{
    match branches {
        [Some(_), Some(alternate), ..] => index_where(branch_leaves(alternate), 2),
        [Some(_), None, ..] => None,
        [Some(_)] => None,
        [None, ..] => None,
        [] => None,
    }
}

fn named_by_truth(truth: Option<bool>, branches: &[Option<Node>]) -> Option<usize>
    ensures { result ≡ named_by_truth truth (row branches.now) }
{
    match truth {
        Some(true) => named_alternate(branches),
        Some(false) => named_consequent(branches),
        None => None,
    }
}

fn named_among(parts: &[Option<Node>], alloc: Global) -> Option<usize>
    ensures { result ≡ named_among (row parts.now) }
{
    match parts {
        [Some(test), branches @ ..] => named_by_truth(truth_given(test, alloc), branches),
        [None, ..] => None,
        [] => None,
    }
}

// The branch that isn't taken, where names are left of something in it, by its index.
fn named_at(node: &Node, alloc: Global) -> Option<usize>
    ensures { result ≡ named_at node.now.kind node.now.below }
{
    let NodeKind::IfStatement = node.kind() else {
        return None;
    };
    named_among(node.children(), alloc)
}

// ---- the context is told

#[cycle(drops)]
fn drop_inside(node: &Node, ctx: &mut MinifierTraverseCtx)
    requires asked { ctx.old.requested ≡ true }
    ensures left { Leaves ctx.old (λ r. inside_gone (ids r) node.now.kind node.now.below) (inside_gone evals node.now.kind node.now.below) ctx.new }
{
    if runs_inside(node.kind()) {
        drop_row(is_list(node.kind()), node.children(), ctx);
    }
}

#[cycle(drops)]
fn drop_item(listed: bool, node: &Node, ctx: &mut MinifierTraverseCtx)
    requires asked { ctx.old.requested ≡ true }
    ensures left { Leaves ctx.old (λ r. one_gone (ids r) listed node.now) (one_gone evals listed node.now) ctx.new }
{
    if leaves_names(listed, node) {
        ctx.drop_statement(node);
    } else {
        drop_inside(node, ctx);
    }
}

#[cycle(drops)]
fn drop_row(listed: bool, children: &[Option<Node>], ctx: &mut MinifierTraverseCtx)
    requires asked { ctx.old.requested ≡ true }
    ensures left { Leaves ctx.old (λ r. row_gone (ids r) listed (row children.now)) (row_gone evals listed (row children.now)) ctx.new }
{
    let mut rest = children;
    while let [first, others @ ..] = rest {
        if let Some(node) = first {
            drop_item(listed, node, ctx);
        }
        rest = others;
    }
}

fn drop_child(child: &Option<Node>, ctx: &mut MinifierTraverseCtx)
    requires asked { ctx.old.requested ≡ true }
    ensures left { Leaves ctx.old (λ r. gone_of (ids r) child.now) (gone_of evals child.now) ctx.new }
{
    if let Some(node) = child {
        drop_inside(node, ctx);
    }
}

fn drop_named(parts: &[Option<Node>], at: usize, ctx: &mut MinifierTraverseCtx)
    requires asked { ctx.old.requested ≡ true }
    ensures left { Leaves ctx.old (λ r. gone_at (ids r) at (row parts.now)) (gone_at evals at (row parts.now)) ctx.new }
{
    if at < parts.len() {
        drop_child(&parts[at], ctx);
    }
}

// ---- and then names alone are left

#[cycle(names)]
fn name_inside(alloc: Global, node: &mut Node) -> Result<(), AllocError>
    ensures { IfOk result (λ u. node.new ≡ record node.old { below = branch_named node.old.kind node.old.below }) }
{
    if !runs_inside(node.kind()) {
        return Ok(());
    }
    let listed = is_list(node.kind());
    let mut items = node.replace_children(Vec::new(alloc));
    let done = name_each(alloc, listed, items.as_mut_slice());
    node.replace_children(items);
    done
}

#[cycle(names)]
fn name_each(alloc: Global, listed: bool, items: &mut [Option<Node>]) -> Result<(), AllocError>
    ensures { IfOk result (λ u. row items.new ≡ with_names listed (row items.old)) }
{
    for item in items.iter_mut() {
        name_item(alloc, listed, item)?;
    }
    Ok(())
}

#[cycle(names)]
fn name_item(alloc: Global, listed: bool, item: &mut Option<Node>) -> Result<(), AllocError>
    ensures { IfOk result (λ u. item.new ≡ named_item listed item.old) }
{
    if item_leaves_names(listed, item) {
        *item = names_of_item(alloc, item)?;
        return Ok(());
    }
    name_child(alloc, item)
}

#[cycle(names)]
fn name_child(alloc: Global, child: &mut Option<Node>) -> Result<(), AllocError>
    ensures { IfOk result (λ u. child.new ≡ named_child child.old) }
{
    match child {
        Some(node) => name_inside(alloc, node),
        None => Ok(()),
    }
}

// ---- in a copy of the branch, which takes its place once it is made: what wants memory comes first

fn named_copy(alloc: Global, branch: &Node) -> Result<Option<Node>, AllocError>
    ensures { IfOk result (λ y. y ≡ named_child (Some branch.now)) }
{
    let mut copy = clone_node(alloc, branch)?;
    name_inside(alloc, &mut copy)?;
    Ok(Some(copy))
}

fn named_if_any(alloc: Global, branch: &Option<Node>) -> Result<Option<Node>, AllocError>
    ensures { IfOk result (λ y. y ≡ named_child branch.now) }
{
    match branch {
        Some(node) => named_copy(alloc, node),
        None => Ok(None),
    }
}

fn named_branch(
    alloc: Global,
    parts: &[Option<Node>],
    at: usize,
) -> Result<Option<Node>, AllocError>
    ensures { IfOk result (λ y. y ≡ named_of at (row parts.now)) }
{
    if at < parts.len() {
        named_if_any(alloc, &parts[at])
    } else {
        Ok(None)
    }
}

fn put_there(parts: &mut [Option<Node>], at: usize, branch: Option<Node>)
    ensures { row parts.new ≡ put_there at branch (row parts.old) }
{
    if at < parts.len() {
        parts[at] = branch;
    }
}

fn put_branch(alloc: Global, node: &mut Node, at: usize, branch: Option<Node>)
    ensures { node.new ≡ record node.old { below = put_there at branch node.old.below } }
{
    let mut parts = node.replace_children(Vec::new(alloc));
    put_there(parts.as_mut_slice(), at, branch);
    node.replace_children(parts);
}

/// In the branch of an `if` that isn't taken, statements of a list that declare names by `var`, and no others around them, become declarations
/// of these. The context is told. It fails only for want of memory; then all is as it was.
pub(crate) fn leave_names(
    node: &mut Node,
    ctx: &mut MinifierTraverseCtx,
) -> Result<bool, AllocError>
    ensures does { IfOk result (λ answer. Does name_if ctx.old node.old answer ctx.new node.new) }
    ensures refused { OnErr result ((node.new ≡ node.old) × (ctx.new ≡ ctx.old)) }
{
    let Some(at) = named_at(node, ctx.alloc()) else {
        return Ok(false);
    };
    let branch = named_branch(ctx.alloc(), node.children(), at)?;
    ctx.notice_change();
    drop_named(node.children(), at, ctx);
    put_branch(ctx.alloc(), node, at, branch);
    Ok(true)
}
