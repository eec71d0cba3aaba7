// A declaration of a name that nothing uses becomes a statement of its value.
ghost use Rattle.std.specs.Prelude.{◌≡◌, ◌&&◌, not, true};
ghost use Rattle.js_syntax.specs.declared.node_kind.NodeKind.TheVariants.{ExpressionStatement as expression_statement};
ghost use Rattle.js_syntax.specs.Node.{row};
ghost use Rattle.min_context.specs.Edited.{Edited};
ghost use Rattle.min_pass.specs.Pass.{unmarked};
ghost use Rattle.min_traverse.specs.Lawful.{Does};
ghost use Rattle.steps.specs.Allowed.ValueStays.{may_be_stated};
ghost use Rattle.rules.specs.DeadCode.Rules as rules;
ghost use Rattle.rules.specs.DeadCode.Rules.{where_of};
ghost use Rattle.min_statements.specs.Acts as acts;
ghost use Rattle.min_statements.specs.Walker.{facts_of};

use crate::empty_ifs::is_nothing;
use crate::facts::{Facts, Where};
use crate::names::{scope_of, symbol_of, variable_is_unused};
use crate::statements::Statements;
use js_syntax::{NodeKind, VariableKind};
use js_tree::Node;
use min_context::{Ancestor, MinifierTraverseCtx, Parent};
use min_expressions::may_take_name;
use std::alloc::Global;

// ---- whether it does

fn is_item_under(above: Ancestor) -> bool
    ensures { result ≡ rules.is_item_under above }
{
    match above {
        Ancestor::Field(parent, _) => matches!(parent, Parent::Statements),
        Ancestor::None => false,
    }
}

// A literal would be taken for a directive, and a function or a class may take its name from there.
fn may_be_stated(value: &Node) -> bool
    ensures { result ≡ may_be_stated value.now.kind value.now.below }
{
    match value.kind() {
        NodeKind::Literal(_) => false,
        _ => !may_take_name(value),
    }
}

// Nothing stands below a name.
#[tactic(auto, using(crate::proofs::Named::declared))]
fn name_is_unused(facts: &Facts, scope: u32, name: &Node) -> bool
    ensures { result ≡ rules.name_is_unused facts.now scope name.now.kind name.now.note name.now.below }
{
    is_nothing(name.children()) && variable_is_unused(facts, scope, symbol_of(name))
}

// Of what lies below a declarator.
fn value_stays(facts: &Facts, scope: u32, parts: &[Option<Node>]) -> bool
    ensures { result ≡ rules.value_stays facts.now scope (row parts.now) }
{
    match parts {
        [Some(name), Some(value)] => name_is_unused(facts, scope, name) && may_be_stated(value),
        [] => false,
        [None, ..] => false,
        [Some(_)] => false,
        [Some(_), None, ..] => false,
        [Some(_), Some(_), None, ..] => false,
        [Some(_), Some(_), Some(_), ..] => false,
    }
}

fn value_of_stays(facts: &Facts, scope: u32, declarator: &Node) -> bool
    ensures { result ≡ rules.value_of_stays facts.now scope declarator.now.kind declarator.now.below }
{
    match declarator.kind() {
        NodeKind::VariableDeclarator => value_stays(facts, scope, declarator.children()),
        _ => false,
    }
}

fn value_of_one_stays(facts: &Facts, scope: u32, declarators: &[Option<Node>]) -> bool
    ensures { result ≡ rules.value_of_one_stays facts.now scope (row declarators.now) }
{
    match declarators {
        [Some(declarator)] => value_of_stays(facts, scope, declarator),
        [] => false,
        [None, ..] => false,
        [Some(_), None, ..] => false,
        [Some(_), Some(_), ..] => false,
    }
}

fn value_in_stays(facts: &Facts, scope: u32, list: &Node) -> bool
    ensures { result ≡ rules.value_in_stays facts.now scope list.now.kind list.now.below }
{
    match list.kind() {
        NodeKind::Declarators => value_of_one_stays(facts, scope, list.children()),
        _ => false,
    }
}

fn value_of_list_stays(facts: &Facts, scope: u32, children: &[Option<Node>]) -> bool
    ensures { result ≡ rules.value_of_list_stays facts.now scope (row children.now) }
{
    match children {
        [Some(list)] => value_in_stays(facts, scope, list),
        [] => false,
        [None, ..] => false,
        [Some(_), None, ..] => false,
        [Some(_), Some(_), ..] => false,
    }
}

// Inside of a `with` statement the value may be that of a property of its object.
fn value_stays_there(
    names: &Statements,
    how: VariableKind,
    children: &[Option<Node>],
    ctx: &MinifierTraverseCtx,
) -> bool
    ensures { result ≡ (not (where_of ctx.now.place).in_with && rules.value_of_list_stays (facts_of names.now ctx.now) (rules.scope_of (where_of ctx.now.place) how) (row children.now)) }
{
    let at = Where::of(ctx);
    !at.in_with && value_of_list_stays(&names.facts(ctx), scope_of(at, how), children)
}

// As an item of a list of statements.
fn becomes_stated(names: &Statements, node: &Node, ctx: &MinifierTraverseCtx) -> bool
    ensures { result ≡ rules.becomes_stated (facts_of names.now ctx.now) ctx.now.place node.now.kind node.now.below }
{
    match node.kind() {
        NodeKind::VariableDeclaration(how) => {
            is_item_under(ctx.parent()) && value_stays_there(names, *how, node.children(), ctx)
        }
        _ => false,
    }
}

// ---- and the change

fn below_first(alloc: Global, children: Vec<Option<Node>>) -> Vec<Option<Node>>
    ensures { row result.items ≡ rules.below_first (row children.items) }
{
    let mut children = children;
    if children.is_empty() {
        return children;
    }
    match children.remove(0) {
        Some(node) => node.into_children(),
        None => Vec::new(alloc),
    }
}

fn behind_first(children: Vec<Option<Node>>) -> Vec<Option<Node>>
    ensures { row result.items ≡ rules.behind_first (row children.items) }
{
    let mut children = children;
    if children.is_empty() {
        return children;
    }
    children.remove(0);
    children
}

// The value, behind the name in the only declarator of the list.
fn value_below(alloc: Global, children: Vec<Option<Node>>) -> Vec<Option<Node>>
    ensures { row result.items ≡ rules.value_below (row children.items) }
{
    behind_first(below_first(alloc, below_first(alloc, children)))
}

// A statement of the value takes the place of the declaration.
fn put_value(names: &Statements, node: &mut Node, ctx: &mut MinifierTraverseCtx)
    requires stays { rules.becomes_stated (facts_of names.now ctx.old) ctx.old.place node.old.kind node.old.below ≡ true }
    ensures put { node.new ≡ record { kind = expression_statement; note = unmarked node.old.note; below = rules.value_below node.old.below } }
    ensures edited { Edited ctx.old node.old node.new true ctx.new }
{
    let span = node.span();
    let children = node.replace_children(Vec::new(ctx.alloc()));
    let value = value_below(ctx.alloc(), children);
    let statement = Node::new(NodeKind::ExpressionStatement, span, value);
    ctx.replace_statement(node, statement);
}

/// A declaration of one name that nothing uses becomes a statement of its value, as an item of a list of statements and not inside of a
/// `with` statement, if such a statement may begin with the value. The context is told.
pub fn state_value(names: &Statements, node: &mut Node, ctx: &mut MinifierTraverseCtx) -> bool
    ensures does { Does (acts.state names.now) ctx.old node.old result ctx.new node.new }
{
    if !becomes_stated(names, node, ctx) {
        return false;
    }
    put_value(names, node, ctx);
    true
}
