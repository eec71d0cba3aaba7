// Whether an expression may refer to something else when it is evaluated again.
ghost use Rattle.std.specs.Prelude.{◌≡◌, ◌<◌, length, option_map};
ghost use Rattle.js_syntax.specs.Node.{row};
ghost use Rattle.scope_table.specs.Reading.{symbol_at};
ghost use Rattle.min_expressions.specs.MayChange.{is_import, is_script_global, may_be_written, symbol_may_change, symbol_of, may_change, object_may_change, target_may_change};

use crate::fold::PeepholeOptimizations;
use bitflags::Flags;
use js_syntax::{NodeKind, ReferenceId, SourceType, SymbolId};
use js_tree::Node;
use min_context::MinifierTraverseCtx;
use scope_table::{Scoping, SymbolFlags};

fn is_import(scoping: &Scoping, symbol: SymbolId) -> bool
    requires { symbol.0 < length scoping.now.symbols }
    ensures { result ≡ is_import (symbol_at scoping.now symbol.0) }
{
    scoping.symbol_flags(symbol).contains(SymbolFlags::Import)
}

fn is_script_global(scoping: &Scoping, source_type: SourceType, symbol: SymbolId) -> bool
    requires { symbol.0 < length scoping.now.symbols }
    ensures { result ≡ is_script_global source_type (symbol_at scoping.now symbol.0) }
{
    match source_type {
        SourceType::Script => scoping.symbol_scope_id(symbol).0 == 0,
        SourceType::Module => false,
        SourceType::CommonJs => false,
    }
}

fn may_be_written(symbol: SymbolId, ctx: &MinifierTraverseCtx) -> bool
    requires { symbol.0 < length ctx.now.scoping.symbols }
    ensures { result ≡ may_be_written ctx.now (symbol_at ctx.now.scoping symbol.0) }
{
    let scoping = ctx.scoping();
    is_import(scoping, symbol)
        || is_script_global(scoping, ctx.source_type(), symbol)
        || scoping.symbol_is_mutated(symbol)
}

fn symbol_may_change(symbol: Option<SymbolId>, ctx: &MinifierTraverseCtx) -> bool
    ensures { result ≡ symbol_may_change ctx.now (option_map (λ s. s.0) symbol) }
{
    match symbol {
        Some(symbol) => {
            if (symbol.0 as usize) < ctx.scoping().symbols_len() {
                may_be_written(symbol, ctx)
            } else {
                true
            }
        }
        None => true,
    }
}

fn symbol_of(scoping: &Scoping, node: &Node) -> Option<SymbolId>
    ensures { option_map (λ s. s.0) result ≡ symbol_of scoping.now node.now.note.id }
{
    match node.id() {
        Some(id) => {
            if (id as usize) < scoping.references_len() {
                scoping.get_reference(ReferenceId(id)).symbol_id()
            } else {
                None
            }
        }
        None => None,
    }
}

fn may_change(node: &Node, ctx: &MinifierTraverseCtx) -> bool
    ensures { result ≡ may_change ctx.now node.now.kind node.now.note node.now.below }
{
    match node.kind() {
        NodeKind::ThisExpression => false,
        NodeKind::ReferenceName(_) => symbol_may_change(symbol_of(ctx.scoping(), node), ctx),
        NodeKind::ParenthesizedExpression => {
            let Some(Some(inner)) = node.children().first() else {
                return true;
            };
            may_change(inner, ctx)
        }
        _ => true,
    }
}

fn object_may_change(children: &[Option<Node>], ctx: &MinifierTraverseCtx) -> bool
    ensures { result ≡ object_may_change ctx.now (row children.now) }
{
    let Some(Some(object)) = children.first() else {
        return false;
    };
    may_change(object, ctx)
}

fn target_may_change(target: &Node, ctx: &MinifierTraverseCtx) -> bool
    ensures { result ≡ target_may_change ctx.now target.now.kind target.now.below }
{
    match target.kind() {
        NodeKind::MemberExpression { .. } => object_may_change(target.children(), ctx),
        NodeKind::ParenthesizedExpression => {
            let Some(Some(inner)) = target.children().first() else {
                return false;
            };
            target_may_change(inner, ctx)
        }
        _ => false,
    }
}

impl PeepholeOptimizations {
    /// Whether an expression may refer to something else when it is evaluated again. `this` doesn't, nor does a name with a symbol
    /// that is no import, isn't declared in a script's own scope, and has no reference in its list that writes. Parentheses are
    /// looked through.
    pub fn is_expression_that_reference_may_change(node: &Node, ctx: &MinifierTraverseCtx) -> bool
        ensures changes { result ≡ may_change ctx.now node.now.kind node.now.note node.now.below }
    {
        may_change(node, ctx)
    }

    /// The same of the object of a member that is assigned; false of all else that is assigned.
    pub fn member_object_may_be_mutated(target: &Node, ctx: &MinifierTraverseCtx) -> bool
        ensures changes { result ≡ target_may_change ctx.now target.now.kind target.now.below }
    {
        target_may_change(target, ctx)
    }
}
