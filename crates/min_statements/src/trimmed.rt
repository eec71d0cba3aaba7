// What goes of a list of statements leaves it.
ghost use Rattle.std.specs.Prelude.{◌≡◌, [], ◌∷◌, true};
ghost use Rattle.js_syntax.specs.declared.node_kind.NodeKind.TheVariants.{Statements as statements};
ghost use Rattle.js_syntax.specs.Node.{row, forest_of};
ghost use Rattle.scope_counts.specs.Counts.{ids};
ghost use Rattle.min_context.specs.Edited.{evals, Leaves};
ghost use Rattle.min_traverse.specs.Lawful.{Does};
ghost use Rattle.rules.specs.DeadCode.Rules as rules;
ghost use Rattle.min_statements.specs.Acts as acts;
ghost use Rattle.min_statements.specs.Shed.{declarators_shed, declaration_shed, item_shed, shed, is_dead_declarator, is_dead_item, kept_items, each_left, left_of};
ghost use Rattle.min_statements.specs.Walker.{facts_of};

use crate::facts::{Facts, Where};
use crate::goes::{
    child_has_dead, declaration_has_dead, declarator_goes, has_dead, item_goes, item_has_dead,
};
use crate::inert::{clear_inert, has_inert};
use crate::statements::Statements;
use js_syntax::{NodeKind, VariableKind};
use js_tree::Node;
use min_context::MinifierTraverseCtx;
use std::alloc::Global;

fn is_dead_declarator(
    facts: &Facts,
    at: Where,
    how: VariableKind,
    declarator: &Option<Node>,
) -> bool
    ensures { result ≡ is_dead_declarator facts.now at how declarator.now }
{
    match declarator {
        Some(node) => declarator_goes(facts, at, how, node),
        None => false,
    }
}

// What goes has something dead, which few items have.
fn is_dead_item(facts: &Facts, at: Where, item: &Option<Node>) -> bool
    ensures { result ≡ is_dead_item facts.now at item.now }
{
    match item {
        Some(node) => item_has_dead(facts, at, node) && item_goes(facts, at, node),
        None => false,
    }
}

// ---- the context is told

fn drop_declarator(
    names: &Statements,
    at: Where,
    how: VariableKind,
    declarator: &Option<Node>,
    ctx: &mut MinifierTraverseCtx,
)
    requires asked { ctx.old.requested ≡ true }
    ensures left { Leaves ctx.old (λ r. declarators_shed (ids r) (facts_of names.now ctx.old) at how (row (declarator.now ∷ []))) (declarators_shed evals (facts_of names.now ctx.old) at how (row (declarator.now ∷ []))) ctx.new }
{
    if let Some(node) = declarator {
        if declarator_goes(&names.facts(ctx), at, how, node) {
            ctx.drop_variable_declarator(node);
        }
    }
}

fn drop_declarators(
    names: &Statements,
    at: Where,
    how: VariableKind,
    declarators: &[Option<Node>],
    ctx: &mut MinifierTraverseCtx,
)
    requires asked { ctx.old.requested ≡ true }
    ensures left { Leaves ctx.old (λ r. declarators_shed (ids r) (facts_of names.now ctx.old) at how (row declarators.now)) (declarators_shed evals (facts_of names.now ctx.old) at how (row declarators.now)) ctx.new }
{
    for declarator in declarators {
        drop_declarator(names, at, how, declarator, ctx);
    }
}

fn drop_of_list(
    names: &Statements,
    at: Where,
    how: VariableKind,
    list: &Node,
    ctx: &mut MinifierTraverseCtx,
)
    requires asked { ctx.old.requested ≡ true }
    ensures left { Leaves ctx.old (λ r. declaration_shed (ids r) (facts_of names.now ctx.old) at how (forest_of list.now)) (declaration_shed evals (facts_of names.now ctx.old) at how (forest_of list.now)) ctx.new }
{
    if let NodeKind::Declarators = list.kind() {
        drop_declarators(names, at, how, list.children(), ctx);
    }
}

fn drop_of_declaration(
    names: &Statements,
    at: Where,
    how: VariableKind,
    children: &[Option<Node>],
    ctx: &mut MinifierTraverseCtx,
)
    requires asked { ctx.old.requested ≡ true }
    ensures left { Leaves ctx.old (λ r. declaration_shed (ids r) (facts_of names.now ctx.old) at how (row children.now)) (declaration_shed evals (facts_of names.now ctx.old) at how (row children.now)) ctx.new }
{
    match children {
        [Some(list), ..] => drop_of_list(names, at, how, list, ctx),
        [None, ..] => {}
        [] => {}
    }
}

fn drop_of_item(names: &Statements, at: Where, node: &Node, ctx: &mut MinifierTraverseCtx)
    requires asked { ctx.old.requested ≡ true }
    ensures left { Leaves ctx.old (λ r. item_shed (ids r) (facts_of names.now ctx.old) at node.now.kind node.now.below) (item_shed evals (facts_of names.now ctx.old) at node.now.kind node.now.below) ctx.new }
{
    if let NodeKind::VariableDeclaration(how) = node.kind() {
        drop_of_declaration(names, at, *how, node.children(), ctx);
    }
}

fn drop_dead(names: &Statements, at: Where, item: &Option<Node>, ctx: &mut MinifierTraverseCtx)
    requires asked { ctx.old.requested ≡ true }
    ensures left { Leaves ctx.old (λ r. shed (ids r) (facts_of names.now ctx.old) at (row (item.now ∷ []))) (shed evals (facts_of names.now ctx.old) at (row (item.now ∷ []))) ctx.new }
{
    if let Some(node) = item {
        if item_goes(&names.facts(ctx), at, node) {
            ctx.drop_statement(node);
        } else {
            drop_of_item(names, at, node, ctx);
        }
    }
}

// Most items have nothing dead, which is asked first.
fn drop_item(names: &Statements, at: Where, item: &Option<Node>, ctx: &mut MinifierTraverseCtx)
    requires asked { ctx.old.requested ≡ true }
    ensures left { Leaves ctx.old (λ r. shed (ids r) (facts_of names.now ctx.old) at (row (item.now ∷ []))) (shed evals (facts_of names.now ctx.old) at (row (item.now ∷ []))) ctx.new }
{
    if child_has_dead(&names.facts(ctx), at, item) {
        drop_dead(names, at, item, ctx);
    }
}

// Tells the context of all that goes of a list.
fn drop_items(names: &Statements, at: Where, items: &[Option<Node>], ctx: &mut MinifierTraverseCtx)
    requires asked { ctx.old.requested ≡ true }
    ensures left { Leaves ctx.old (λ r. shed (ids r) (facts_of names.now ctx.old) at (row items.now)) (shed evals (facts_of names.now ctx.old) at (row items.now)) ctx.new }
{
    for item in items {
        drop_item(names, at, item, ctx);
    }
}

// ---- and then it is let go. A vector without items takes no memory.

fn keep_declarators(
    facts: &Facts,
    at: Where,
    how: VariableKind,
    declarators: &mut Vec<Option<Node>>,
)
    ensures { row declarators.new.items ≡ rules.declarators_left facts.now at how (row declarators.old.items) }
{
    declarators.retain(|declarator| !is_dead_declarator(facts, at, how, declarator));
}

fn keep_items(facts: &Facts, at: Where, items: &mut Vec<Option<Node>>)
    ensures { row items.new.items ≡ kept_items facts.now at (row items.old.items) }
{
    items.retain(|item| !is_dead_item(facts, at, item));
}

fn trim_list(alloc: Global, facts: &Facts, at: Where, how: VariableKind, list: &mut Node)
    ensures { forest_of list.new ≡ rules.declaration_left facts.now at how (forest_of list.old) }
{
    if let NodeKind::Declarators = list.kind() {
        let mut declarators = list.replace_children(Vec::new(alloc));
        keep_declarators(facts, at, how, &mut declarators);
        list.replace_children(declarators);
    }
}

fn trim_list_of(
    alloc: Global,
    facts: &Facts,
    at: Where,
    how: VariableKind,
    child: &mut Option<Node>,
)
    ensures { row (child.new ∷ []) ≡ rules.declaration_left facts.now at how (row (child.old ∷ [])) }
{
    if let Some(list) = child {
        trim_list(alloc, facts, at, how, list);
    }
}

fn trim_first(
    alloc: Global,
    facts: &Facts,
    at: Where,
    how: VariableKind,
    children: &mut [Option<Node>],
)
    ensures { row children.new ≡ rules.declaration_left facts.now at how (row children.old) }
{
    if !children.is_empty() {
        trim_list_of(alloc, facts, at, how, &mut children[0]);
    }
}

fn trim_declaration(alloc: Global, facts: &Facts, at: Where, how: VariableKind, node: &mut Node)
    ensures { node.new ≡ record node.old { below = rules.declaration_left facts.now at how node.old.below } }
{
    let mut children = node.replace_children(Vec::new(alloc));
    trim_first(alloc, facts, at, how, children.as_mut_slice());
    node.replace_children(children);
}

fn trim_item(alloc: Global, facts: &Facts, at: Where, node: &mut Node)
    ensures { node.new ≡ record node.old { below = rules.item_left facts.now at node.old.kind node.old.below } }
{
    if let NodeKind::VariableDeclaration(how) = node.kind() {
        let how = *how;
        if declaration_has_dead(facts, at, how, node.children()) {
            trim_declaration(alloc, facts, at, how, node);
        }
    }
}

fn trim_child(alloc: Global, facts: &Facts, at: Where, item: &mut Option<Node>)
    ensures { item.new ≡ left_of facts.now at item.old }
{
    if let Some(node) = item {
        trim_item(alloc, facts, at, node);
    }
}

fn trim_each(alloc: Global, facts: &Facts, at: Where, items: &mut [Option<Node>])
    ensures { row items.new ≡ each_left facts.now at (row items.old) }
{
    for item in items.iter_mut() {
        trim_child(alloc, facts, at, item);
    }
}

// What is left of a list.
fn trim(alloc: Global, facts: &Facts, at: Where, node: &mut Node)
    ensures { node.new ≡ record node.old { below = rules.trimmed facts.now at node.old.below } }
{
    let mut items = node.replace_children(Vec::new(alloc));
    keep_items(facts, at, &mut items);
    trim_each(alloc, facts, at, items.as_mut_slice());
    node.replace_children(items);
}

// Whether anything leaves a list.
fn has_gone(facts: &Facts, at: Where, items: &[Option<Node>], alloc: Global) -> bool
    ensures { result ≡ acts.has_gone facts.now at (row items.now) }
{
    has_inert(items, alloc) || has_dead(facts, at, items)
}

/// What goes of a list of statements leaves it: what stands behind a jump or what cuts off as one does, loops that never turn and `try`
/// around nothing, empty and silent statements, blocks of nothing, and functions and declarators that nothing uses. The context is told of
/// each before. Where nothing goes, nothing is touched.
pub fn trim_statements(names: &Statements, node: &mut Node, ctx: &mut MinifierTraverseCtx) -> bool
    requires list { node.old.kind ≡ statements }
    ensures does { Does (acts.trim names.now) ctx.old node.old result ctx.new node.new }
{
    let at = Where::of(ctx);
    if !has_gone(&names.facts(ctx), at, node.children(), ctx.alloc()) {
        return false;
    }
    ctx.notice_change();
    clear_inert(node, ctx);
    drop_items(names, at, node.children(), ctx);
    trim(ctx.alloc(), &names.facts(ctx), at, node);
    true
}
