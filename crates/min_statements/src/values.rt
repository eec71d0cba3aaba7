// The values of declarations in a branch that isn't taken, which are never given. The recursion goes as deep as the tree.
ghost use Rattle.std.specs.Prelude.{◌≡◌, true};
ghost use Rattle.js_syntax.specs.Node.{row};
ghost use Rattle.scope_counts.specs.Counts.{ids};
ghost use Rattle.min_context.specs.Edited.{evals, Leaves};
ghost use Rattle.steps.specs.Allowed.UnrunValue.{declares, passes, may_be_dropped};
ghost use Rattle.rules.specs.Expressions.Untaken.{is_declarator, zero_for, value_left, value_drops, values_of, values_rid, drops_of, values_drop};
ghost use Rattle.min_statements.specs.Untaken.{value_shed, declarator_shed, values_shed_of, values_shed, zero_one, has_value, values_one, zero_row};

use crate::untaken::runs_inside;
use js_syntax::{LiteralValue, NodeKind};
use js_tree::Node;
use min_context::MinifierTraverseCtx;
use std::alloc::Global;

// ---- kinds

fn is_declarator(kind: &NodeKind) -> bool
    ensures { result ≡ is_declarator kind.now }
{
    matches!(kind, NodeKind::VariableDeclarator)
}

fn declares(kind: &NodeKind) -> bool
    ensures { result ≡ declares kind.now }
{
    matches!(
        kind,
        NodeKind::VariableDeclaration(_) | NodeKind::Declarators | NodeKind::VariableDeclarator
    )
}

fn passes(kind: &NodeKind) -> bool
    ensures { result ≡ passes kind.now }
{
    runs_inside(kind) || declares(kind)
}

// Expressions but names, literals, functions and classes.
fn may_be_dropped(kind: &NodeKind) -> bool
    ensures { result ≡ may_be_dropped kind.now }
{
    match kind {
        NodeKind::ThisExpression
        | NodeKind::ArrayExpression
        | NodeKind::ObjectExpression
        | NodeKind::SequenceExpression
        | NodeKind::UnaryExpression(_)
        | NodeKind::UpdateExpression { .. }
        | NodeKind::BinaryExpression(_)
        | NodeKind::LogicalExpression(_)
        | NodeKind::AssignmentExpression(_)
        | NodeKind::ConditionalExpression
        | NodeKind::CallExpression { .. }
        | NodeKind::NewExpression { .. }
        | NodeKind::MemberExpression { .. }
        | NodeKind::TemplateLiteral
        | NodeKind::TaggedTemplateExpression => true,
        _ => false,
    }
}

// ---- whether one goes

fn value_drops(parts: &[Option<Node>]) -> bool
    ensures { result ≡ value_drops (row parts.now) }
{
    match parts {
        [Some(_), Some(value), ..] => may_be_dropped(value.kind()),
        [Some(_), None, ..] => false,
        [Some(_)] => false,
        [None, ..] => false,
        [] => false,
    }
}

#[cycle(drop)]
pub(crate) fn values_drop_inside(node: &Node) -> bool
    ensures { result ≡ drops_of node.now.kind node.now.below (values_drop node.now.below) }
{
    passes(node.kind())
        && (values_drop(node.children())
            || is_declarator(node.kind()) && value_drops(node.children()))
}

#[cycle(drop)]
fn values_drop(children: &[Option<Node>]) -> bool
    ensures { result ≡ values_drop (row children.now) }
{
    let mut rest = children;
    while let [first, others @ ..] = rest {
        if let Some(node) = first {
            if values_drop_inside(node) {
                return true;
            }
        }
        rest = others;
    }
    false
}

// ---- the context is told

fn tell_value(parts: &[Option<Node>], ctx: &mut MinifierTraverseCtx)
    requires asked { ctx.old.requested ≡ true }
    ensures left { Leaves ctx.old (λ r. value_shed (ids r) (row parts.now)) (value_shed evals (row parts.now)) ctx.new }
{
    match parts {
        [Some(_), Some(value), ..] => {
            if may_be_dropped(value.kind()) {
                ctx.drop_expression(value);
            }
        }
        [Some(_), None, ..] => {}
        [Some(_)] => {}
        [None, ..] => {}
        [] => {}
    }
}

fn tell_declarator(node: &Node, ctx: &mut MinifierTraverseCtx)
    requires asked { ctx.old.requested ≡ true }
    ensures left { Leaves ctx.old (λ r. declarator_shed (ids r) node.now.kind node.now.below) (declarator_shed evals node.now.kind node.now.below) ctx.new }
{
    if is_declarator(node.kind()) {
        tell_value(node.children(), ctx);
    }
}

#[cycle(tell)]
pub(crate) fn tell_values(node: &Node, ctx: &mut MinifierTraverseCtx)
    requires asked { ctx.old.requested ≡ true }
    ensures left { Leaves ctx.old (λ r. values_shed_of (ids r) node.now.kind node.now.below (values_shed (ids r) node.now.below)) (values_shed_of evals node.now.kind node.now.below (values_shed evals node.now.below)) ctx.new }
{
    if passes(node.kind()) {
        tell_each(node.children(), ctx);
        tell_declarator(node, ctx);
    }
}

#[cycle(tell)]
fn tell_each(children: &[Option<Node>], ctx: &mut MinifierTraverseCtx)
    requires asked { ctx.old.requested ≡ true }
    ensures left { Leaves ctx.old (λ r. values_shed (ids r) (row children.now)) (values_shed evals (row children.now)) ctx.new }
{
    let mut rest = children;
    while let [first, others @ ..] = rest {
        if let Some(node) = first {
            tell_values(node, ctx);
        }
        rest = others;
    }
}

// ---- and then a zero comes in their place

fn zero(alloc: Global, node: &mut Node)
    ensures { node.new ≡ zero_for node.old.note }
{
    *node = Node::new(
        NodeKind::Literal(LiteralValue::Number(0)),
        node.span(),
        Vec::new(alloc),
    );
}

fn zero_child(alloc: Global, child: &mut Option<Node>)
    ensures { child.new ≡ zero_one child.old }
{
    if let Some(node) = child {
        if may_be_dropped(node.kind()) {
            zero(alloc, node);
        }
    }
}

fn has_value(parts: &[Option<Node>]) -> bool
    ensures { result ≡ has_value (row parts.now) }
{
    match parts {
        [Some(_), Some(_), ..] => true,
        [Some(_), None, ..] => false,
        [Some(_)] => false,
        [None, ..] => false,
        [] => false,
    }
}

fn zero_value(alloc: Global, parts: &mut [Option<Node>])
    ensures { row parts.new ≡ value_left (row parts.old) }
{
    if has_value(parts) && parts.len() > 1 {
        zero_child(alloc, &mut parts[1]);
    }
}

fn zero_if(alloc: Global, declarator: bool, parts: &mut [Option<Node>])
    ensures { row parts.new ≡ zero_row declarator (row parts.old) }
{
    if declarator {
        zero_value(alloc, parts);
    }
}

#[cycle(zeroes)]
pub(crate) fn zero_values(alloc: Global, node: &mut Node)
    ensures { node.new ≡ record node.old { below = values_of node.old.kind node.old.below (values_rid node.old.below) } }
{
    if passes(node.kind()) {
        let declarator = is_declarator(node.kind());
        let mut parts = node.replace_children(Vec::new(alloc));
        zero_each(alloc, parts.as_mut_slice());
        zero_if(alloc, declarator, parts.as_mut_slice());
        node.replace_children(parts);
    }
}

#[cycle(zeroes)]
fn zero_each(alloc: Global, parts: &mut [Option<Node>])
    ensures { row parts.new ≡ values_rid (row parts.old) }
{
    for part in parts.iter_mut() {
        zero_inside(alloc, part);
    }
}

#[cycle(zeroes)]
fn zero_inside(alloc: Global, child: &mut Option<Node>)
    ensures { child.new ≡ values_one child.old }
{
    if let Some(node) = child {
        zero_values(alloc, node);
    }
}
