// Imports of one module come together in a program's own list.
ghost use Rattle.std.specs.Prelude.{◌≡◌, ◌&&◌, not, [], ◌∷◌, IfOk, OnErr};
ghost use Rattle.js_syntax.specs.Node.{row, forest_of};
ghost use Rattle.min_traverse.specs.Lawful.{Does};
ghost use Rattle.scope_rules.specs.ScopeFlags as scope_flag;
ghost use Rattle.steps.specs.Marked.Flags.{scope_has};
ghost use Rattle.rules.specs.Imports.Merged as rules;
ghost use Rattle.min_statements.specs.Acts as acts;
ghost use Rattle.min_statements.specs.Merged.{is_module, is_statements, ListComes};
ghost use Rattle.min_statements.specs.Walker.{facts_of};

use crate::facts::sees_eval;
use crate::statements::Statements;
use js_syntax::{NodeKind, SourceType};
use js_tree::Node;
use min_context::{Ancestor, MinifierTraverseCtx};
use min_imports::merge_imports;
use std::alloc::{AllocError, Global};

// ---- where they may

fn is_module(kind: &NodeKind) -> bool
    ensures { result ≡ is_module kind.now }
{
    matches!(kind, NodeKind::Program(SourceType::Module))
}

fn is_outermost(above: &[Ancestor]) -> bool
    ensures { result ≡ rules.is_outermost above.now }
{
    match above {
        [] => true,
        [_, ..] => false,
    }
}

// In a module, unless a direct call of `eval` is anywhere in it.
pub(crate) fn may_come_together(names: &Statements, node: &Node, ctx: &MinifierTraverseCtx) -> bool
    ensures { result ≡ (is_module node.now.kind && (rules.is_outermost ctx.now.place.ancestors && not (scope_has (facts_of names.now ctx.now).scoping 0 scope_flag.direct_eval))) }
{
    is_module(node.kind())
        && (is_outermost(ctx.ancestors_above()) && !sees_eval(names.facts(ctx).scoping, 0))
}

// ---- and the list in which they do

pub(crate) fn is_statements(kind: &NodeKind) -> bool
    ensures { result ≡ is_statements kind.now }
{
    matches!(kind, NodeKind::Statements)
}

fn merge_list(alloc: Global, list: &mut Node) -> Result<bool, AllocError>
    ensures comes { IfOk result (λ b. ListComes (forest_of list.old) b (forest_of list.new)) }
    ensures refused { OnErr result (list.new ≡ list.old) }
{
    if !is_statements(list.kind()) {
        return Ok(false);
    }
    let merged = merge_imports(alloc, list)?;
    Ok(merged)
}

fn merge_child(alloc: Global, child: &mut Option<Node>) -> Result<bool, AllocError>
    ensures comes { IfOk result (λ b. ListComes (row (child.old ∷ [])) b (row (child.new ∷ []))) }
    ensures refused { OnErr result (child.new ≡ child.old) }
{
    match child {
        Some(list) => merge_list(alloc, list),
        None => Ok(false),
    }
}

fn merge_only(alloc: Global, children: &mut [Option<Node>]) -> Result<bool, AllocError>
    ensures comes { IfOk result (λ b. ListComes (row children.old) b (row children.new)) }
    ensures refused { OnErr result (children.new ≡ children.old) }
{
    if children.len() == 1 {
        let merged = merge_child(alloc, &mut children[0])?;
        return Ok(merged);
    }
    Ok(false)
}

fn merge_below(alloc: Global, node: &mut Node) -> Result<bool, AllocError>
    ensures comes { IfOk result (λ b. ListComes node.old.below b node.new.below) }
    ensures kind { node.new.kind ≡ node.old.kind }
    ensures note { node.new.note ≡ node.old.note }
    ensures refused { OnErr result (node.new.below ≡ node.old.below) }
{
    let mut children = node.replace_children(Vec::new(alloc));
    let merged = merge_only(alloc, children.as_mut_slice());
    node.replace_children(children);
    merged
}

/// Imports of a module in its own list come together: each goes into the first one before it that asks for the same module and can take
/// its names. Where none goes, nothing is touched. It fails only for want of memory; then all is as it was.
pub fn merge_module_imports(
    names: &Statements,
    node: &mut Node,
    ctx: &mut MinifierTraverseCtx,
) -> Result<bool, AllocError>
    ensures does { IfOk result (λ b. Does (acts.merge names.now) ctx.old node.old b ctx.new node.new) }
    ensures refused { OnErr result ((node.new ≡ node.old) × (ctx.new ≡ ctx.old)) }
{
    if !may_come_together(names, node, ctx) {
        return Ok(false);
    }
    if !merge_below(ctx.alloc(), node)? {
        return Ok(false);
    }
    ctx.notice_change();
    Ok(true)
}
