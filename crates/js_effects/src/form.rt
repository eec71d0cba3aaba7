// What an expression tells its type, value and truth by.
ghost use Rattle.std.specs.Prelude.{◌≡◌};
ghost use Rattle.js_effects.specs.Forms as forms;

use js_syntax::{AssignmentOperator, BinaryOperator, LogicalOperator, NodeKind, UnaryOperator};

/// What an expression tells its type, value and truth by.
#[derive(Clone, Copy)]
pub(crate) enum Form {
    /// The value that stands there.
    Literal,
    /// That it makes an object.
    Object,
    /// That it is `new`, which gives an object.
    New,
    /// That it makes a text.
    Template,
    /// What is known of the name.
    Name,
    /// Its first part.
    First,
    /// Its last part.
    Last,
    /// What stands right of `=`.
    Right,
    Conditional,
    Logical(LogicalOperator),
    Unary(UnaryOperator),
    Binary(BinaryOperator),
    /// Nothing.
    Other,
}

fn assignment_form(operator: AssignmentOperator) -> Form
    ensures { result ≡ forms.assignment_form operator }
{
    match operator {
        AssignmentOperator::Assign => Form::Right,
        _ => Form::Other,
    }
}

pub(crate) fn form_of(kind: &NodeKind) -> Form
    ensures { result ≡ forms.form_of kind.now }
{
    match kind {
        NodeKind::Literal(_) => Form::Literal,
        NodeKind::RegExp(_)
        | NodeKind::Function { .. }
        | NodeKind::Class(_)
        | NodeKind::ArrayExpression
        | NodeKind::ObjectExpression => Form::Object,
        NodeKind::NewExpression(_) => Form::New,
        NodeKind::TemplateLiteral => Form::Template,
        NodeKind::ReferenceName(_) => Form::Name,
        NodeKind::ParenthesizedExpression | NodeKind::SequenceExpression => Form::First,
        NodeKind::Expressions => Form::Last,
        NodeKind::AssignmentExpression(operator) => assignment_form(*operator),
        NodeKind::ConditionalExpression => Form::Conditional,
        NodeKind::LogicalExpression(operator) => Form::Logical(*operator),
        NodeKind::UnaryExpression(operator) => Form::Unary(*operator),
        NodeKind::BinaryExpression(operator) => Form::Binary(*operator),
        _ => Form::Other,
    }
}
