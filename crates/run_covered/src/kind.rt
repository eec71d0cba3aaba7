// The kinds of nodes of which runs say something.
ghost use Rattle.std.specs.Prelude.{◌≡◌, codes};
ghost use Rattle.js_syntax.specs.Core.{is_core_unary, is_core_binary, is_core_assignment, is_plain_key, is_plain_property};
ghost use Rattle.js_syntax.specs.Facts.{is_core};

use js_syntax::{AssignmentOperator, BinaryOperator, Key, NodeKind, PropertyKind, UnaryOperator};

fn is_core_unary(operator: UnaryOperator) -> bool
    ensures { result ≡ is_core_unary operator }
{
    match operator {
        UnaryOperator::BitwiseNot | UnaryOperator::Delete => false,
        _ => true,
    }
}

fn is_core_binary(operator: BinaryOperator) -> bool
    ensures { result ≡ is_core_binary operator }
{
    match operator {
        BinaryOperator::Exponential
        | BinaryOperator::ShiftLeft
        | BinaryOperator::ShiftRight
        | BinaryOperator::ShiftRightZeroFill
        | BinaryOperator::BitwiseOr
        | BinaryOperator::BitwiseXor
        | BinaryOperator::BitwiseAnd => false,
        _ => true,
    }
}

fn is_core_assignment(operator: AssignmentOperator) -> bool
    ensures { result ≡ is_core_assignment operator }
{
    match operator {
        AssignmentOperator::Exponential
        | AssignmentOperator::ShiftLeft
        | AssignmentOperator::ShiftRight
        | AssignmentOperator::ShiftRightZeroFill
        | AssignmentOperator::BitwiseOr
        | AssignmentOperator::BitwiseXor
        | AssignmentOperator::BitwiseAnd => false,
        _ => true,
    }
}

// A key that is no node and doesn't set the prototype (ECMA-262 B.3.1).
fn is_plain_key(key: &Key) -> bool
    ensures { result ≡ is_plain_key key.now }
{
    match key {
        Key::Name(name) => name.as_str() != "__proto__",
        Key::Text(text) => text.as_str() != "__proto__",
        Key::Number(_) => true,
        Key::Below => false,
    }
}

fn is_plain_property(how: PropertyKind, key: &Key) -> bool
    ensures { result ≡ is_plain_property how key.now }
{
    match how {
        PropertyKind::Init => is_plain_key(key),
        _ => false,
    }
}

/// Whether runs say something of nodes of this kind.
pub fn is_core(kind: &NodeKind) -> bool
    ensures { result ≡ is_core kind.now }
{
    match kind {
        NodeKind::Property { kind: how, key, .. } => is_plain_property(*how, key),
        NodeKind::UnaryExpression(operator) => is_core_unary(*operator),
        NodeKind::BinaryExpression(operator) => is_core_binary(*operator),
        NodeKind::AssignmentExpression(operator) => is_core_assignment(*operator),
        NodeKind::CallExpression { optional, .. } => !*optional,
        NodeKind::MemberExpression { optional, .. } => !*optional,
        NodeKind::WithStatement
        | NodeKind::ForInStatement
        | NodeKind::ForOfStatement
        | NodeKind::Class(_)
        | NodeKind::ClassBody
        | NodeKind::MethodDefinition { .. }
        | NodeKind::PropertyDefinition { .. }
        | NodeKind::StaticBlock
        | NodeKind::PrivateName(_)
        | NodeKind::RegExp(_)
        | NodeKind::Super
        | NodeKind::ChainExpression
        | NodeKind::TemplateLiteral
        | NodeKind::TemplateElement { .. }
        | NodeKind::TaggedTemplateExpression
        | NodeKind::SpreadElement
        | NodeKind::BindingRest
        | NodeKind::TargetRest
        | NodeKind::BindingObject
        | NodeKind::TargetObject
        | NodeKind::BindingArray
        | NodeKind::TargetArray
        | NodeKind::BindingProperty(_)
        | NodeKind::TargetProperty(_)
        | NodeKind::BindingDefault
        | NodeKind::TargetDefault
        | NodeKind::NewTarget
        | NodeKind::ImportMeta
        | NodeKind::ImportExpression
        | NodeKind::Hole => false,
        _ => true,
    }
}
