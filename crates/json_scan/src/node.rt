// A node's type and row.
ghost use Rattle.std.specs.Prelude.{◌≡◌, codes, Some};
ghost use Rattle.std.specs.Option.{option_map};
ghost use Rattle.serde_json.specs.Find.{get};
ghost use Rattle.json_value.specs.View.{view};
ghost use Rattle.js_syntax.specs.Table.{stands};
ghost use Rattle.json_text.specs.Answer.{Gives};
ghost use Rattle.json_text.specs.Plain as plain;
ghost use Rattle.json_text.specs.Reading as reading;
ghost use Rattle.json_table.specs.View.{class_view, row_view};
ghost use Rattle.json_scan.specs.Place.{fault_at};

use crate::name::is_reg_exp;
use crate::place::Place;
use js_syntax::NodeType;
use json_table::{Row, Wanted, row_of};
use json_text::TreeError;
use json_value::Value;
use std::alloc::Global;

/// The type of a node, where the table has it.
#[tactic(auto, unfolding(json_text::specs::Plain::type_at))]
pub fn type_at(alloc: Global, node: &Value<'_>, place: Place) -> Result<NodeType, TreeError>
    ensures { Gives (λ t. t) result (plain.type_at (fault_at place) (view node.now)) }
{
    if !node.is_object() {
        return Err(place.fault());
    }
    let Some(Value::String(name)) = node.get("type") else {
        return Err(TreeError::BadField {
            kind: "",
            field: "type",
        });
    };
    match NodeType::named(*name) {
        Some(kind) if is_known(kind, node) => Ok(kind),
        _ => Err(TreeError::UnknownNode {
            kind: String::from_str(alloc, *name)?,
        }),
    }
}

// A literal with a `bigint` isn't in the table.
fn is_known(kind: NodeType, node: &Value<'_>) -> bool
    ensures { result ≡ plain.is_known kind (view node.now) }
{
    match kind {
        NodeType::Literal => node.get("bigint").is_none(),
        _ => true,
    }
}

// Whether the field has this text.
pub fn is_this(node: &Value<'_>, field: &str, text: &str) -> bool
    ensures { result ≡ plain.is_this text.now (get field.now (view node.now)) }
{
    match node.get(field) {
        Some(Value::String(found)) => *found == text,
        _ => false,
    }
}

// Whether the field is a text.
pub fn is_text(node: &Value<'_>, field: &str) -> bool
    ensures { result ≡ plain.is_text_at (get field.now (view node.now)) }
{
    matches!(node.get(field), Some(Value::String(_)))
}

// Whether the field is there and isn't null.
fn is_there(node: &Value<'_>, field: &str) -> bool
    ensures { result ≡ plain.is_there (get field.now (view node.now)) }
{
    match node.get(field) {
        None | Some(Value::Null) => false,
        Some(_) => true,
    }
}

// Whether a property is an accessor or method.
fn is_method(node: &Value<'_>) -> bool
    ensures { result ≡ reading.is_method (view node.now) }
{
    is_this(node, "kind", "get")
        || is_this(node, "kind", "set")
        || matches!(node.get("method"), Some(Value::Bool(true)))
}

// Whether the field is a node of this name.
fn is_named(node: &Value<'_>, field: &str, name: &str) -> bool
    ensures { result ≡ reading.is_named name.now (get field.now (view node.now)) }
{
    match node.get(field) {
        Some(value) => is_this(value, "name", name),
        None => false,
    }
}

// Which of the rows of one type it is, where several may stand.
#[tactic(auto, unfolding(json_text::specs::Reading::row_here))]
fn row_here(node: &Value<'_>, row: Row) -> Option<Row>
    ensures { option_map row_view result ≡ reading.row_here (view node.now) (Some (row_view row)) }
{
    let found = match row {
        Row::TextLiteral if !is_text(node, "value") || is_reg_exp(node) => return None,
        Row::Literal if is_reg_exp(node) => Row::RegExp,
        Row::BinaryExpression if is_this(node, "operator", "in") => Row::InExpression,
        Row::AssignmentExpression if !is_this(node, "operator", "=") => Row::CompoundAssignment,
        Row::Property if is_method(node) => Row::MethodProperty,
        Row::NewTarget if is_named(node, "meta", "import") => Row::ImportMeta,
        Row::ExportList if is_there(node, "declaration") => Row::ExportDeclaration,
        Row::ExportList if is_there(node, "source") => Row::ExportFrom,
        row => row,
    };
    Some(found)
}

/// The row of a node, if it may stand where such a node is wanted.
pub fn row_at(wanted: Wanted, kind: NodeType, node: &Value<'_>) -> Option<Row>
    ensures { option_map row_view result ≡ reading.row_here (view node.now) (stands (class_view wanted) kind) }
{
    match row_of(wanted, kind) {
        Some(row) => row_here(node, row),
        None => None,
    }
}
