// Imports of a module that only feed exports become exports from their modules.
ghost use Rattle.std.specs.Prelude.{◌≡◌, ◌≤◌, List, length, Option, Some, [], ◌∷◌, true, IfOk, OnErr};
ghost use Rattle.std.specs.Option.{option_map};
ghost use Rattle.js_syntax.specs.Node.{Tree, row, forest_of};
ghost use Rattle.scope_counts.specs.Counts.{ids};
ghost use Rattle.min_context.specs.Edited.{evals, Leaves};
ghost use Rattle.min_imports.specs.Passing.{left_out, uses_of};
ghost use Rattle.min_traverse.specs.Lawful.{Does};
ghost use Rattle.min_statements.specs.Acts as acts;
ghost use Rattle.min_statements.specs.Passed.{list_of, out_one, PlannedBelow, FitsBelow, PutBelow};

use crate::facts::Facts;
use crate::merged::{is_statements, may_come_together};
use crate::statements::Statements;
use js_tree::Node;
use min_context::MinifierTraverseCtx;
use min_imports::{Passing, Uses, pass_on, plan_passing};
use std::alloc::{AllocError, Global};

// ---- the list

fn list_in(list: &Node) -> Option<&[Option<Node>]>
    ensures { option_map (λ s. row s.now) result ≡ list_of (forest_of list.now) }
{
    if is_statements(list.kind()) {
        Some(list.children())
    } else {
        None
    }
}

fn list_of(children: &[Option<Node>]) -> Option<&[Option<Node>]>
    ensures { option_map (λ s. row s.now) result ≡ list_of (row children.now) }
{
    match children {
        [Some(list)] => list_in(list),
        [Some(_), _, ..] => None,
        [None, ..] => None,
        [] => None,
    }
}

fn uses_in<'a>(facts: &Facts<'a>) -> Uses<'a>
    ensures { result ≡ uses_of facts.now.scoping facts.now.exported }
{
    Uses {
        scoping: facts.scoping,
        exported: facts.exported,
    }
}

fn plan_list(
    alloc: Global,
    facts: &Facts,
    children: &[Option<Node>],
) -> Result<Option<Passing>, AllocError>
    ensures { IfOk result (λ p. PlannedBelow facts.now (row children.now) p) }
{
    let Some(items) = list_of(children) else {
        return Ok(None);
    };
    let uses = uses_in(facts);
    let passing = plan_passing(alloc, &uses, items)?;
    Ok(passing)
}

// ---- the context is told

fn drop_item(item: &Option<Node>, ctx: &mut MinifierTraverseCtx)
    requires { ctx.old.requested ≡ true }
    ensures { Leaves ctx.old (λ r. ids r (row (item.now ∷ []))) (evals (row (item.now ∷ []))) ctx.new }
{
    match item {
        Some(node) => ctx.drop_statement(node),
        None => {}
    }
}

fn drop_unless(stays: bool, item: &Option<Node>, ctx: &mut MinifierTraverseCtx)
    requires { ctx.old.requested ≡ true }
    ensures { Leaves ctx.old (λ r. ids r (out_one stays item.now)) (evals (out_one stays item.now)) ctx.new }
{
    if stays {
        return;
    }
    drop_item(item, ctx);
}

fn drop_items(items: &[Option<Node>], staying: &[bool], ctx: &mut MinifierTraverseCtx)
    requires within { length staying.now ≤ length items.now }
    requires asked { ctx.old.requested ≡ true }
    ensures { Leaves ctx.old (λ r. ids r (left_out staying.now items.now)) (evals (left_out staying.now items.now)) ctx.new }
{
    let mut at = 0;
    while at < staying.len() {
        drop_unless(staying[at], &items[at], ctx);
        at += 1;
    }
}

fn drop_exports(children: &[Option<Node>], staying: &[bool], ctx: &mut MinifierTraverseCtx)
    requires within { (items : List (Option Tree)) → list_of (row children.now) ≡ Some (row items) → length staying.now ≤ length items }
    requires asked { ctx.old.requested ≡ true }
    ensures { (items : List (Option Tree)) → list_of (row children.now) ≡ Some (row items) → Leaves ctx.old (λ r. ids r (left_out staying.now items)) (evals (left_out staying.now items)) ctx.new }
{
    match list_of(children) {
        Some(items) => drop_items(items, staying, ctx),
        None => {}
    }
}

// ---- and the list as it is left

fn pass_in(alloc: Global, list: &mut Node, passing: Passing)
    requires { FitsBelow passing.staying.items passing.changed.items (forest_of list.old) }
    ensures { PutBelow passing.staying.items passing.changed.items (forest_of list.old) (forest_of list.new) }
{
    let mut items = list.replace_children(Vec::new(alloc));
    pass_on(&mut items, passing);
    list.replace_children(items);
}

fn pass_child(alloc: Global, child: &mut Option<Node>, passing: Passing)
    requires { FitsBelow passing.staying.items passing.changed.items (row (child.old ∷ [])) }
    ensures { PutBelow passing.staying.items passing.changed.items (row (child.old ∷ [])) (row (child.new ∷ [])) }
{
    match child {
        Some(list) => pass_in(alloc, list, passing),
        None => {}
    }
}

fn pass_only(alloc: Global, children: &mut [Option<Node>], passing: Passing)
    requires { FitsBelow passing.staying.items passing.changed.items (row children.old) }
    ensures { PutBelow passing.staying.items passing.changed.items (row children.old) (row children.new) }
{
    if children.len() == 1 {
        pass_child(alloc, &mut children[0], passing);
    }
}

fn pass_below(alloc: Global, node: &mut Node, passing: Passing)
    requires { FitsBelow passing.staying.items passing.changed.items node.old.below }
    ensures below { PutBelow passing.staying.items passing.changed.items node.old.below node.new.below }
    ensures kind { node.new.kind ≡ node.old.kind }
    ensures note { node.new.note ≡ node.old.note }
{
    let mut children = node.replace_children(Vec::new(alloc));
    pass_only(alloc, children.as_mut_slice(), passing);
    node.replace_children(children);
}

/// In a module's own list an import whose names a later export of names alone lists, each of them and nothing else, and to which nothing
/// else refers, becomes an export from the other module, with what the export listed; the export leaves, of which the context is told.
/// Where none does, nothing is touched. It fails only for want of memory; then all is as it was.
pub fn merge_import_export(
    names: &Statements,
    node: &mut Node,
    ctx: &mut MinifierTraverseCtx,
) -> Result<bool, AllocError>
    ensures does { IfOk result (λ b. Does (acts.pass names.now) ctx.old node.old b ctx.new node.new) }
    ensures refused { OnErr result ((node.new ≡ node.old) × (ctx.new ≡ ctx.old)) }
{
    if !may_come_together(names, node, ctx) {
        return Ok(false);
    }
    let planned = plan_list(ctx.alloc(), &names.facts(ctx), node.children())?;
    let Some(passing) = planned else {
        return Ok(false);
    };
    ctx.notice_change();
    drop_exports(node.children(), passing.staying.as_slice(), ctx);
    pass_below(ctx.alloc(), node, passing);
    Ok(true)
}
