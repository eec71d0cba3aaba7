// Which expressions have effects.
ghost use Rattle.std.specs.Prelude.{◌≡◌, ◌==◌, ◌&&◌, not, false, [], ◌∷◌};
ghost use Rattle.std.specs.Option.{option_map};
ghost use Rattle.js_syntax.specs.Node.{forest_of, row};
ghost use Rattle.js_effects.specs.Answers.{answers};
ghost use Rattle.js_effects.specs.Each.{inner_at, last, width};
ghost use Rattle.js_effects.specs.Kinds as kinds;
ghost use Rattle.js_effects.specs.Effects as effects;

use crate::child::{child, inner_child, last_place};
use crate::context::MayHaveSideEffectsContext;
use crate::parts::{Parts, parts_run};
use crate::silent::{converts_nothing, is_value};
use crate::types::{
    all_primitive, asks_an_object, compares, is_named_undefined, is_primitive, part_type,
};
use js_syntax::{
    AssignmentOperator, BinaryOperator, FunctionKind, Key, LiteralValue, NodeKind, UnaryOperator,
};
use js_tree::Node;
use min_options::PropertyReadSideEffects;

fn is_reference(kind: &NodeKind) -> bool
    ensures { result ≡ effects.is_reference kind.now }
{
    matches!(kind, NodeKind::ReferenceName(_))
}

fn is_silent_global<C: MayHaveSideEffectsContext>(kind: &NodeKind, ctx: &C) -> bool
    ensures { result ≡ effects.is_silent_global (answers (C.names ctx.now) (C.effects ctx.now)) kind.now }
{
    is_named_undefined(kind) || !ctx.unknown_global_side_effects()
}

fn is_silent_name<C: MayHaveSideEffectsContext>(node: &Node, ctx: &C) -> bool
    ensures { result ≡ effects.is_silent_name (answers (C.names ctx.now) (C.effects ctx.now)) node.now.kind node.now.note }
{
    is_reference(node.kind())
        && !ctx.inside_with()
        && (!ctx.is_global_reference(node) || is_silent_global(node.kind(), ctx))
}

// A name that the program declares.
fn is_own_name<C: MayHaveSideEffectsContext>(node: Option<&Node>, ctx: &C) -> bool
    ensures { result ≡ effects.is_own_name (answers (C.names ctx.now) (C.effects ctx.now)) (option_map (λ n. n.now) node.entry) }
{
    match node {
        Some(node) => {
            is_reference(node.kind()) && !ctx.inside_with() && !ctx.is_global_reference(node)
        }
        None => false,
    }
}

fn is_typeof(kind: &NodeKind) -> bool
    ensures { result ≡ effects.is_typeof kind.now }
{
    matches!(kind, NodeKind::UnaryExpression(UnaryOperator::Typeof))
}

fn is_name(node: Option<&Node>) -> bool
    ensures { result ≡ effects.is_name (option_map (λ n. n.now) node.entry) }
{
    match node {
        Some(node) => is_reference(node.kind()),
        None => false,
    }
}

fn is_typeof_name<C: MayHaveSideEffectsContext>(node: &Node, ctx: &C) -> bool
    ensures { result ≡ effects.is_typeof_name (answers (C.names ctx.now) (C.effects ctx.now)) node.now.kind node.now.below }
{
    is_typeof(node.kind()) && !ctx.inside_with() && is_name(inner_child(node, 0))
}

#[tactic(auto, using(crate::proofs::Children::row_width))]
fn is_empty_row(children: &[Option<Node>]) -> bool
    ensures { result ≡ (width (row children.now) == 0) }
{
    children.is_empty()
}

fn is_bare(node: Option<&Node>) -> bool
    ensures { result ≡ effects.is_bare (option_map (λ n. n.now) node.entry) }
{
    match node {
        Some(node) => is_empty_row(node.children()),
        None => true,
    }
}

fn is_still<C: MayHaveSideEffectsContext>(node: &Node, ctx: &C) -> bool
    ensures { result ≡ effects.is_still (answers (C.names ctx.now) (C.effects ctx.now)) node.now.kind node.now.below }
{
    match node.kind() {
        NodeKind::BindingName(_) | NodeKind::PrivateName(_) => true,
        NodeKind::ThisExpression => ctx.this_is_initialised(),
        NodeKind::StaticBlock => is_bare(child(node, 0)),
        _ => false,
    }
}

fn does_nothing<C: MayHaveSideEffectsContext>(node: &Node, ctx: &C) -> bool
    ensures { result ≡ effects.does_nothing (answers (C.names ctx.now) (C.effects ctx.now)) node.now.kind node.now.note node.now.below }
{
    is_value(node.kind())
        || is_silent_name(node, ctx)
        || is_typeof_name(node, ctx)
        || is_still(node, ctx)
}

pub(crate) fn only_runs_parts(kind: &NodeKind) -> bool
    ensures { result ≡ effects.only_runs_parts kind.now }
{
    match kind {
        NodeKind::LogicalExpression(_)
        | NodeKind::ConditionalExpression
        | NodeKind::SequenceExpression
        | NodeKind::Expressions
        | NodeKind::ParenthesizedExpression
        | NodeKind::ArrayExpression
        | NodeKind::Elements
        | NodeKind::ObjectExpression
        | NodeKind::Quasis
        | NodeKind::ClassBody
        | NodeKind::Members => true,
        _ => false,
    }
}

fn is_silent_unary(operator: UnaryOperator, primitive: bool) -> bool
    ensures { result ≡ effects.is_silent_unary operator primitive }
{
    match operator {
        UnaryOperator::Delete => false,
        _ => converts_nothing(operator) || primitive,
    }
}

fn is_silent_binary(operator: BinaryOperator, primitive: bool) -> bool
    ensures { result ≡ effects.is_silent_binary operator primitive }
{
    compares(operator) || (!asks_an_object(operator) && primitive)
}

// Of a template, whose substitutions stand in the list behind its texts.
fn substitutes_primitives<C: MayHaveSideEffectsContext>(node: &Node, ctx: &C) -> bool
    ensures { result ≡ kinds.all_primitive (kinds.types (answers (C.names ctx.now) (C.effects ctx.now)) (effects.substitutions node.now.below)) }
{
    match child(node, 1) {
        Some(substitutions) => all_primitive(substitutions, ctx),
        None => true,
    }
}

pub(crate) fn converts_primitives<C: MayHaveSideEffectsContext>(node: &Node, ctx: &C) -> bool
    ensures { result ≡ effects.converts_primitives (answers (C.names ctx.now) (C.effects ctx.now)) node.now.kind node.now.below }
{
    match node.kind() {
        NodeKind::UnaryExpression(operator) => is_silent_unary(*operator, all_primitive(node, ctx)),
        NodeKind::BinaryExpression(operator) => {
            is_silent_binary(*operator, all_primitive(node, ctx))
        }
        NodeKind::TemplateLiteral => substitutes_primitives(node, ctx),
        _ => false,
    }
}

fn is_private(node: Option<&Node>) -> bool
    ensures { result ≡ effects.is_private (option_map (λ n. n.now) node.entry) }
{
    match node {
        Some(node) => is_private_kind(node.kind()),
        None => false,
    }
}

fn is_private_kind(kind: &NodeKind) -> bool
    ensures { result ≡ effects.is_private_kind kind.now }
{
    matches!(kind, NodeKind::PrivateName(_))
}

fn is_static(key: &Key) -> bool
    ensures { result ≡ effects.is_static key.now }
{
    !matches!(key, Key::Below)
}

pub(crate) fn is_silent_key<C: MayHaveSideEffectsContext>(node: &Node, key: &Key, ctx: &C) -> bool
    ensures { result ≡ effects.is_silent_key (answers (C.names ctx.now) (C.effects ctx.now)) key.now node.now.below }
{
    is_static(key) || is_private(child(node, 0)) || is_primitive(part_type(node, 0, ctx))
}

fn is_silent_field<C: MayHaveSideEffectsContext>(
    node: &Node,
    of_class: bool,
    key: &Key,
    ctx: &C,
) -> bool
    ensures { result ≡ effects.is_silent_field (answers (C.names ctx.now) (C.effects ctx.now)) of_class key.now node.now.below }
{
    !(of_class && child(node, 1).is_some()) && is_silent_key(node, key, ctx)
}

fn has_silent_key<C: MayHaveSideEffectsContext>(node: &Node, ctx: &C) -> bool
    ensures { result ≡ effects.has_silent_key (answers (C.names ctx.now) (C.effects ctx.now)) node.now.kind node.now.below }
{
    match node.kind() {
        NodeKind::Property { key, .. } => is_silent_key(node, key, ctx),
        NodeKind::MethodDefinition { key, .. } => is_silent_key(node, key, ctx),
        NodeKind::PropertyDefinition { is_static, key } => {
            is_silent_field(node, *is_static, key, ctx)
        }
        _ => false,
    }
}

fn is_spread(node: &Option<Node>) -> bool
    ensures { result ≡ effects.has_spread (row (node.now ∷ [])) }
{
    match node {
        Some(node) => is_spread_kind(node.kind()),
        None => false,
    }
}

fn is_spread_kind(kind: &NodeKind) -> bool
    ensures { result ≡ effects.is_spread kind.now }
{
    matches!(kind, NodeKind::SpreadElement)
}

pub(crate) fn has_spread(children: &[Option<Node>]) -> bool
    ensures { result ≡ effects.has_spread (row children.now) }
{
    for child in children {
        if is_spread(child) {
            return true;
        }
    }
    false
}

fn is_array_literal(kind: &NodeKind) -> bool
    ensures { result ≡ effects.is_array_literal kind.now }
{
    matches!(kind, NodeKind::ArrayExpression)
}

pub(crate) fn is_array(node: Option<&Node>) -> bool
    ensures { result ≡ effects.is_array (option_map (λ n. n.now) node.entry) }
{
    match node {
        Some(node) => is_array_literal(node.kind()),
        None => false,
    }
}

fn is_safe_text(text: &str) -> bool
    ensures { result ≡ effects.is_safe_text text.now }
{
    text != "__proto__"
}

fn is_safe_kind(kind: &NodeKind) -> bool
    ensures { result ≡ effects.is_safe_kind kind.now }
{
    match kind {
        NodeKind::Literal(LiteralValue::Text(text)) => is_safe_text(text.as_str()),
        NodeKind::Literal(LiteralValue::Number(_)) => true,
        _ => false,
    }
}

fn is_safe_literal(node: Option<&Node>) -> bool
    ensures { result ≡ effects.is_safe_literal (option_map (λ n. n.now) node.entry) }
{
    match node {
        Some(node) => is_safe_kind(node.kind()),
        None => false,
    }
}

fn is_safe_key(node: &Node, key: &Key) -> bool
    ensures { result ≡ effects.is_safe_key key.now node.now.below }
{
    match key {
        Key::Name(name) => is_safe_text(name.as_str()),
        Key::Text(text) => is_safe_text(text.as_str()),
        Key::Number(_) => true,
        Key::Below => is_safe_literal(inner_child(node, 1)),
    }
}

fn is_own_member<C: MayHaveSideEffectsContext>(node: &Node, ctx: &C) -> bool
    ensures { result ≡ effects.is_own_member (answers (C.names ctx.now) (C.effects ctx.now)) node.now.kind node.now.below }
{
    match node.kind() {
        NodeKind::MemberExpression { key, .. } => {
            is_own_name(inner_child(node, 0), ctx) && is_safe_key(node, key)
        }
        _ => false,
    }
}

fn is_own_target<C: MayHaveSideEffectsContext>(node: Option<&Node>, ctx: &C) -> bool
    ensures { result ≡ effects.is_own_target (answers (C.names ctx.now) (C.effects ctx.now)) (option_map (λ n. n.now) node.entry) }
{
    match node {
        Some(node) => is_own_member(node, ctx),
        None => false,
    }
}

fn is_assign(operator: AssignmentOperator) -> bool
    ensures { result ≡ effects.is_assign operator }
{
    matches!(operator, AssignmentOperator::Assign)
}

fn is_arrow(kind: FunctionKind) -> bool
    ensures { result ≡ effects.is_arrow kind }
{
    matches!(kind, FunctionKind::Arrow)
}

// Whether the value of an expression is that of an arrow.
#[cycle(arrow)]
fn ends_in_arrow(node: &Node) -> bool
    ensures { result ≡ effects.arrow_at 0 (forest_of node.now) }
{
    match node.kind() {
        NodeKind::Function { kind, .. } => is_arrow(*kind),
        NodeKind::ParenthesizedExpression | NodeKind::SequenceExpression => {
            part_ends_in_arrow(node, 0)
        }
        NodeKind::Expressions => last_ends_in_arrow(node),
        _ => false,
    }
}

#[cycle(arrow)]
fn last_ends_in_arrow(node: &Node) -> bool
    ensures { result ≡ last false (effects.arrows node.now.below) }
{
    part_ends_in_arrow(node, last_place(node))
}

#[cycle(arrow)]
fn part_ends_in_arrow(node: &Node, at: usize) -> bool
    ensures { result ≡ effects.arrow_at at node.now.below }
{
    match child(node, at) {
        Some(part) => ends_in_arrow(part),
        None => false,
    }
}

fn reads_act<C: MayHaveSideEffectsContext>(ctx: &C) -> bool
    ensures { result ≡ (C.effects ctx.now).reads_act }
{
    match ctx.property_read_side_effects() {
        PropertyReadSideEffects::All => true,
        PropertyReadSideEffects::None => false,
    }
}

fn writes_silently<C: MayHaveSideEffectsContext>(
    node: &Node,
    operator: AssignmentOperator,
    ctx: &C,
) -> bool
    ensures { result ≡ (effects.is_assign operator && (not (C.effects ctx.now).writes_act && effects.is_own_target (answers (C.names ctx.now) (C.effects ctx.now)) (inner_at 0 node.now.below))) }
{
    is_assign(operator)
        && !ctx.property_write_side_effects()
        && is_own_target(inner_child(node, 0), ctx)
}

fn runs_as_allowed<C: MayHaveSideEffectsContext>(node: &Node, ctx: &C) -> bool
    ensures { result ≡ effects.runs_as_allowed (answers (C.names ctx.now) (C.effects ctx.now)) node.now.kind node.now.below }
{
    match node.kind() {
        NodeKind::SpreadElement => is_array(inner_child(node, 0)),
        NodeKind::Properties => !has_spread(node.children()),
        NodeKind::MemberExpression { .. } => !reads_act(ctx),
        NodeKind::AssignmentExpression(operator) => writes_silently(node, *operator, ctx),
        NodeKind::Class(_) => !part_ends_in_arrow(node, 1),
        _ => false,
    }
}

fn runs_parts<C: MayHaveSideEffectsContext>(node: &Node, ctx: &C) -> bool
    ensures { result ≡ effects.runs_parts (answers (C.names ctx.now) (C.effects ctx.now)) node.now.kind node.now.below }
{
    only_runs_parts(node.kind())
        || converts_primitives(node, ctx)
        || has_silent_key(node, ctx)
        || runs_as_allowed(node, ctx)
}

/// Whether an expression may have an effect, as the context tells of names and options. The recursion goes as deep as
/// the tree.
#[cycle(acts)]
pub fn has_side_effects<C: MayHaveSideEffectsContext>(node: &Node, ctx: &C) -> bool
    ensures acts { result ≡ effects.acts (answers (C.names ctx.now) (C.effects ctx.now)) (forest_of node.now) }
{
    if does_nothing(node, ctx) {
        false
    } else {
        !runs_parts(node, ctx) || parts_act(node, ctx)
    }
}

#[cycle(acts)]
fn parts_act<C: MayHaveSideEffectsContext>(node: &Node, ctx: &C) -> bool
    ensures { result ≡ effects.part_acts (effects.parts_run node.now.kind) (effects.each_acts (answers (C.names ctx.now) (C.effects ctx.now)) node.now.below) }
{
    match parts_run(node.kind()) {
        Parts::First => part_acts(node, 0, ctx),
        Parts::Second => part_acts(node, 1, ctx),
        Parts::All => any_acts(node.children(), ctx),
    }
}

#[cycle(acts)]
fn part_acts<C: MayHaveSideEffectsContext>(node: &Node, at: usize, ctx: &C) -> bool
    ensures { result ≡ effects.part_acts_at (answers (C.names ctx.now) (C.effects ctx.now)) at node.now.below }
{
    match child(node, at) {
        Some(part) => has_side_effects(part, ctx),
        None => false,
    }
}

#[cycle(acts)]
fn any_acts<C: MayHaveSideEffectsContext>(children: &[Option<Node>], ctx: &C) -> bool
    ensures { result ≡ effects.any_acts (answers (C.names ctx.now) (C.effects ctx.now)) (row children.now) }
{
    for child in children {
        if let Some(node) = child {
            if has_side_effects(node, ctx) {
                return true;
            }
        }
    }
    false
}
