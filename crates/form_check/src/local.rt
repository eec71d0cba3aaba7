// Rules that a node breaks by itself and by what stands around it.
ghost use Rattle.std.specs.Prelude.{◌≡◌};
ghost use Rattle.form_rules.specs.Break.{least, unless};
ghost use Rattle.form_rules.specs.Rules.{rule_3, rule_6, rule_8, rule_10, rule_12};

use crate::rows::{first_is_super, is_bare_name};
use form_context::Context;
use form_rules::Break;
use js_syntax::UnaryOperator;
use js_tree::{LiteralValue, Node, NodeKind, SourceType};

/// A break of a rule unless this holds.
pub(crate) fn unless(holds: bool, place: u32, rule: u8) -> Option<Break>
    ensures { result ≡ least (unless holds place rule) }
{
    if holds {
        None
    } else {
        Some(Break { place, rule })
    }
}

/// What is left is there (ECMA-262 14.8.1, 14.9.1), and no label stands inside itself (14.13.1).
pub(crate) fn rule_3(context: &Context<'_>, place: u32, node: &Node) -> Option<Break>
    ensures { result ≡ least (rule_3 context.now node.now.kind place node.now.below) }
{
    match node.kind() {
        NodeKind::BreakStatement(None) => unless(context.breaks(), place, 3),
        NodeKind::BreakStatement(Some(name)) => {
            unless(context.has_label(name.as_str()), place, 3)
        }
        NodeKind::ContinueStatement(None) => unless(context.continues(), place, 3),
        NodeKind::ContinueStatement(Some(name)) => {
            unless(context.has_loop(name.as_str()), place, 3)
        }
        NodeKind::LabeledStatement(name) => unless(!context.has_label(name.as_str()), place, 3),
        _ => None,
    }
}

/// `return` stands in a function (14.10), or in CommonJS.
pub(crate) fn rule_6(context: &Context<'_>, place: u32, node: &Node) -> Option<Break>
    ensures { result ≡ least (rule_6 context.now node.now.kind place node.now.below) }
{
    match node.kind() {
        NodeKind::ReturnStatement => unless(context.returns(), place, 6),
        _ => None,
    }
}

/// `super` and `new.target` stand where they mean something (13.3.1.1, 15.7.1, 16.1), and `import.meta`
/// in a module.
pub(crate) fn rule_8(context: &Context<'_>, place: u32, node: &Node) -> Option<Break>
    ensures { result ≡ least (rule_8 context.now node.now.kind place node.now.below) }
{
    match node.kind() {
        NodeKind::CallExpression { .. } => unless(
            !first_is_super(node.children()) || context.super_calls(),
            place,
            8,
        ),
        NodeKind::MemberExpression { .. } => unless(
            !first_is_super(node.children()) || context.super_members(),
            place,
            8,
        ),
        NodeKind::NewTarget => unless(context.new_target(), place, 8),
        NodeKind::ImportMeta => { unless(matches!(context.source(), SourceType::Module), place, 8) }
        _ => None,
    }
}

/// Strict code has no `with` (14.11.1) and no `delete` of a name (13.5.1.1).
pub(crate) fn rule_10(context: &Context<'_>, place: u32, node: &Node) -> Option<Break>
    ensures { result ≡ least (rule_10 context.now node.now.kind place node.now.below) }
{
    match node.kind() {
        NodeKind::WithStatement => unless(!context.strict(), place, 10),
        NodeKind::UnaryExpression(UnaryOperator::Delete) => unless(
            !(context.strict() && is_bare_name(node.children())),
            place,
            10,
        ),
        _ => None,
    }
}

/// Numbers are within 2^53 - 1 in magnitude.
pub(crate) fn rule_12(context: &Context<'_>, place: u32, node: &Node) -> Option<Break>
    ensures { result ≡ least (rule_12 context.now node.now.kind place node.now.below) }
{
    match node.kind() {
        NodeKind::Literal(LiteralValue::Number(number)) => {
            unless(number.unsigned_abs() < 9_007_199_254_740_992, place, 12)
        }
        _ => None,
    }
}
