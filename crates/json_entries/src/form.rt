// How a node is written.
ghost use Rattle.std.specs.Prelude.{◌≡◌};
ghost use Rattle.json_entries.specs.Form.{value_form, form_of};

use js_syntax::{LiteralValue, NodeKind};

/// How a node is written.
#[derive(Clone, Copy)]
pub enum Form {
    /// A hole.
    Null,
    /// A list of nodes.
    List,
    /// A negative number, by its magnitude.
    Minus(u64),
    Object,
}

fn value_form(value: &LiteralValue) -> Form
    ensures { result ≡ value_form value.now }
{
    match value {
        LiteralValue::Number(number) if *number < 0 => Form::Minus(number.unsigned_abs()),
        _ => Form::Object,
    }
}

/// How a node of this kind is written.
pub fn form_of(kind: &NodeKind) -> Form
    ensures { result ≡ form_of kind.now }
{
    match kind {
        NodeKind::Literal(value) => value_form(value),
        NodeKind::Hole => Form::Null,
        NodeKind::Statements
        | NodeKind::Cases
        | NodeKind::Declarators
        | NodeKind::Parameters
        | NodeKind::Members
        | NodeKind::Elements
        | NodeKind::Properties
        | NodeKind::Expressions
        | NodeKind::Arguments
        | NodeKind::Quasis
        | NodeKind::Specifiers => Form::List,
        _ => Form::Object,
    }
}
