// Names of imports that nobody uses leave them, and imports without names whose modules are asked for before.
ghost use Rattle.std.specs.Prelude.{◌≡◌, ◌&&◌, [], ◌∷◌, IfOk, OnErr};
ghost use Rattle.js_syntax.specs.declared.node_kind.NodeKind.TheVariants.{Statements as statements};
ghost use Rattle.js_syntax.specs.Node.{row, forest_of};
ghost use Rattle.min_traverse.specs.Lawful.{Does};
ghost use Rattle.steps.specs.Steps as steps;
ghost use Rattle.rules.specs.DeadCode.Rules.{where_of};
ghost use Rattle.rules.specs.Imports.Rules as rules;
ghost use Rattle.min_statements.specs.Acts as acts;
ghost use Rattle.min_statements.specs.Shed.{is_unused_specifier};
ghost use Rattle.min_statements.specs.Walker.{facts_of};

use crate::facts::{Facts, Where};
use crate::names::{symbol_of, variable_is_unused};
use crate::statements::{Statements, keeps_imports};
use js_syntax::NodeKind;
use js_tree::Node;
use min_context::MinifierTraverseCtx;
use min_imports::drop_repeated;
use std::alloc::{AllocError, Global};

// ---- which go

fn binds_import(kind: &NodeKind) -> bool
    ensures { result ≡ steps.binds_import kind.now }
{
    matches!(
        kind,
        NodeKind::ImportSpecifier(_)
            | NodeKind::ImportDefaultSpecifier
            | NodeKind::ImportNamespaceSpecifier
    )
}

#[tactic(auto, using(crate::proofs::Named::imported))]
fn is_unused_name(facts: &Facts, at: Where, name: &Node) -> bool
    ensures { result ≡ rules.name_goes facts.now at (forest_of name.now) }
{
    match name.children() {
        [] => variable_is_unused(facts, at.scope, symbol_of(name)),
        [_, ..] => false,
    }
}

fn name_goes(facts: &Facts, at: Where, children: &[Option<Node>]) -> bool
    ensures { result ≡ rules.name_goes facts.now at (row children.now) }
{
    match children {
        [Some(name)] => is_unused_name(facts, at, name),
        [Some(_), _, ..] => false,
        [None, ..] => false,
        [] => false,
    }
}

fn specifier_goes(facts: &Facts, at: Where, node: &Node) -> bool
    ensures { result ≡ rules.specifier_goes facts.now at node.now.kind node.now.below }
{
    binds_import(node.kind()) && name_goes(facts, at, node.children())
}

fn is_unused_specifier(facts: &Facts, at: Where, specifier: &Option<Node>) -> bool
    ensures { result ≡ is_unused_specifier facts.now at specifier.now }
{
    match specifier {
        Some(node) => specifier_goes(facts, at, node),
        None => false,
    }
}

fn one_goes(facts: &Facts, at: Where, specifiers: &[Option<Node>]) -> bool
    ensures { result ≡ rules.one_goes facts.now at (row specifiers.now) }
{
    for specifier in specifiers {
        if is_unused_specifier(facts, at, specifier) {
            return true;
        }
    }
    false
}

fn list_has_unused(facts: &Facts, at: Where, list: &Node) -> bool
    ensures { result ≡ rules.import_has_unused facts.now at (forest_of list.now) }
{
    match list.kind() {
        NodeKind::Specifiers => one_goes(facts, at, list.children()),
        _ => false,
    }
}

fn import_has_unused(facts: &Facts, at: Where, children: &[Option<Node>]) -> bool
    ensures { result ≡ rules.import_has_unused facts.now at (row children.now) }
{
    match children {
        [Some(list)] => list_has_unused(facts, at, list),
        [Some(_), _, ..] => false,
        [None, ..] => false,
        [] => false,
    }
}

fn loses_names(names: &Statements, ctx: &MinifierTraverseCtx, kind: &NodeKind) -> bool
    ensures { result ≡ rules.loses_names (facts_of names.now ctx.now) kind.now }
{
    match kind {
        NodeKind::ImportDeclaration(_) => !keeps_imports(ctx.options()),
        _ => false,
    }
}

// Few statements are imports, so the kind is asked first.
fn has_unused(names: &Statements, ctx: &MinifierTraverseCtx, node: &Node) -> bool
    ensures { result ≡ (rules.loses_names (facts_of names.now ctx.now) node.now.kind && rules.import_has_unused (facts_of names.now ctx.now) (where_of ctx.now.place) node.now.below) }
{
    loses_names(names, ctx, node.kind())
        && import_has_unused(&names.facts(ctx), Where::of(ctx), node.children())
}

// ---- and what is left

fn keep_specifiers(facts: &Facts, at: Where, specifiers: &mut Vec<Option<Node>>)
    ensures { row specifiers.new.items ≡ rules.names_left facts.now at (row specifiers.old.items) }
{
    specifiers.retain(|specifier| !is_unused_specifier(facts, at, specifier));
}

fn prune_list(alloc: Global, facts: &Facts, at: Where, list: &mut Node)
    ensures { forest_of list.new ≡ rules.import_left facts.now at (forest_of list.old) }
{
    if let NodeKind::Specifiers = list.kind() {
        let mut specifiers = list.replace_children(Vec::new(alloc));
        keep_specifiers(facts, at, &mut specifiers);
        list.replace_children(specifiers);
    }
}

fn prune_list_of(alloc: Global, facts: &Facts, at: Where, child: &mut Option<Node>)
    ensures { row (child.new ∷ []) ≡ rules.import_left facts.now at (row (child.old ∷ [])) }
{
    if let Some(list) = child {
        prune_list(alloc, facts, at, list);
    }
}

fn prune_only(alloc: Global, facts: &Facts, at: Where, children: &mut [Option<Node>])
    ensures { row children.new ≡ rules.import_left facts.now at (row children.old) }
{
    if children.len() == 1 {
        prune_list_of(alloc, facts, at, &mut children[0]);
    }
}

fn prune_import(alloc: Global, facts: &Facts, at: Where, node: &mut Node)
    ensures { node.new ≡ record node.old { below = rules.import_left facts.now at node.old.below } }
{
    let mut children = node.replace_children(Vec::new(alloc));
    prune_only(alloc, facts, at, children.as_mut_slice());
    node.replace_children(children);
}

/// The names of an import leave it that nobody uses, unless the options keep them (`unused`, `invalid_import_side_effects`); the import
/// itself stays, even without any. Names refer to nothing, so that no reference leaves with them of which the context would be told.
/// Where nothing goes, nothing is touched.
pub fn remove_unused_import_specifiers(
    names: &Statements,
    node: &mut Node,
    ctx: &mut MinifierTraverseCtx,
) -> bool
    ensures does { Does (acts.prune names.now) ctx.old node.old result ctx.new node.new }
{
    if !has_unused(names, ctx, node) {
        return false;
    }
    let at = Where::of(ctx);
    prune_import(ctx.alloc(), &names.facts(ctx), at, node);
    ctx.notice_change();
    true
}

// ---- imports without names

/// An import without names leaves a list of statements behind another request of its module, which is loaded there. Where none does,
/// nothing is touched. It fails only for want of memory; then all is as it was.
pub fn remove_repeated_imports(
    node: &mut Node,
    ctx: &mut MinifierTraverseCtx,
) -> Result<bool, AllocError>
    requires list { node.old.kind ≡ statements }
    ensures does { IfOk result (λ b. Does acts.drop_repeated ctx.old node.old b ctx.new node.new) }
    ensures refused { OnErr result ((node.new ≡ node.old) × (ctx.new ≡ ctx.old)) }
{
    if !drop_repeated(ctx.alloc(), node)? {
        return Ok(false);
    }
    ctx.notice_change();
    Ok(true)
}
