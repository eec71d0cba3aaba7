// Names, keys and sources: nodes of JSON that are no nodes of the tree.
ghost use Rattle.std.specs.Prelude.{◌≡◌, codes};
ghost use Rattle.std.specs.Option.{option_map};
ghost use Rattle.serde_json.specs.Find.{get};
ghost use Rattle.json_value.specs.View.{view};
ghost use Rattle.js_syntax.specs.declared.value.Key.TheVariants.{Name as key_name};
ghost use Rattle.json_text.specs.Answer.{Gives};
ghost use Rattle.json_text.specs.Plain as reading;
ghost use Rattle.json_scan.specs.Place.{fault_at};
ghost use Rattle.json_scan.specs.Scalar.{module_name_view, key_view, value_view};

use crate::extra::check_extras;
use crate::kept::{LiteralText, literal_value, text_field};
use crate::node::type_at;
use crate::place::{Place, place_of};
use js_syntax::NodeType;
use json_text::TreeError;
use json_value::Value;
use std::alloc::Global;

/// A name under which modules import and export.
#[derive(Clone, Copy)]
pub enum ModuleNameText<'t> {
    Name(&'t str),
    Text(&'t str),
}

/// A key that is a literal.
#[derive(Clone, Copy)]
pub enum KeyText<'t> {
    Text(&'t str),
    Number(u64),
}

// The name of an Identifier.
#[tactic(auto, using(crate::proofs::Steps::fails_bind))]
fn identifier_name<'t>(node: &Value<'t>) -> Result<&'t str, TreeError>
    ensures { Gives (λ s. s.now) result (reading.read_identifier_name (view node.now)) }
{
    let kind = NodeType::Identifier;
    let name = text_field(node, "name", place_of(kind, "name"))?;
    check_extras(node, kind)?;
    Ok(name)
}

// Whether a literal is a regular expression.
pub fn is_reg_exp(node: &Value<'_>) -> bool
    ensures { result ≡ reading.is_object_at (get (codes "regex") (view node.now)) }
{
    matches!(node.get("regex"), Some(Value::Object(_)))
}

// The text of a Literal that is no regular expression.
#[tactic(auto, using(crate::proofs::Steps::fails_bind))]
fn literal_text<'t>(node: &Value<'t>, place: Place) -> Result<&'t str, TreeError>
    ensures { Gives (λ s. s.now) result (reading.read_text_literal (fault_at place) (view node.now)) }
{
    if is_reg_exp(node) {
        return Err(place.fault());
    }
    let text = text_field(node, "value", place)?;
    check_extras(node, NodeType::Literal)?;
    Ok(text)
}

/// A key that is an Identifier.
#[tactic(auto, unfolding(json_text::specs::Plain::read_identifier), using(crate::proofs::Steps::fails_bind))]
pub fn identifier_key<'t>(node: &Value<'t>) -> Result<&'t str, TreeError>
    ensures { Gives (λ s. key_name (s.now)) result (reading.read_identifier (view node.now)) }
{
    let name = identifier_name(node)?;
    Ok(name)
}

// A text, or a number that isn't negative.
fn key_of<'t>(value: LiteralText<'t>, place: Place) -> Result<KeyText<'t>, TreeError>
    ensures { Gives key_view result (reading.key_of (fault_at place) (value_view value.entry)) }
{
    match value {
        LiteralText::Text(text) => Ok(KeyText::Text(text)),
        LiteralText::Number(n) if n >= 0 => Ok(KeyText::Number(n as u64)),
        _ => Err(place.fault()),
    }
}

/// A key that is a Literal.
#[tactic(auto, unfolding(json_text::specs::Plain::read_literal_key), using(crate::proofs::Steps::fails_bind))]
pub fn literal_key<'t>(node: &Value<'t>, place: Place) -> Result<KeyText<'t>, TreeError>
    ensures { Gives key_view result (reading.read_literal_key (fault_at place) (view node.now)) }
{
    if is_reg_exp(node) {
        return Err(place.fault());
    }
    let value = literal_value(node, place_of(NodeType::Literal, "value"))?;
    let key = key_of(value, place)?;
    check_extras(node, NodeType::Literal)?;
    Ok(key)
}

/// A name that is no node, as a label.
#[tactic(auto, unfolding(json_text::specs::Plain::read_name, json_text::specs::Plain::read_typed), using(crate::proofs::Steps::fails_bind))]
pub fn name_field<'t>(alloc: Global, node: &Value<'t>, place: Place) -> Result<&'t str, TreeError>
    ensures { Gives (λ s. s.now) result
        (reading.read_name (fault_at place) (get place.field.now (view node.now))) }
{
    let Some(value) = node.get(place.field) else {
        return Err(place.fault());
    };
    match type_at(alloc, value, place)? {
        NodeType::Identifier => identifier_name(value),
        _ => Err(place.fault()),
    }
}

/// A text that names a module.
#[tactic(auto, unfolding(json_text::specs::Plain::read_source, json_text::specs::Plain::read_typed), using(crate::proofs::Steps::fails_bind))]
pub fn source_field<'t>(alloc: Global, node: &Value<'t>, place: Place) -> Result<&'t str, TreeError>
    ensures { Gives (λ s. s.now) result
        (reading.read_source (fault_at place) (get place.field.now (view node.now))) }
{
    let Some(value) = node.get(place.field) else {
        return Err(place.fault());
    };
    match type_at(alloc, value, place)? {
        NodeType::Literal => literal_text(value, place),
        _ => Err(place.fault()),
    }
}

/// A name under which a module imports or exports.
#[tactic(auto, unfolding(json_text::specs::Plain::read_module_name, json_text::specs::Plain::read_typed), using(crate::proofs::Steps::fails_bind))]
pub fn module_name_field<'t>(
    alloc: Global,
    node: &Value<'t>,
    place: Place,
) -> Result<ModuleNameText<'t>, TreeError>
    ensures { Gives module_name_view result
        (reading.read_module_name (fault_at place) (get place.field.now (view node.now))) }
{
    let Some(value) = node.get(place.field) else {
        return Err(place.fault());
    };
    match type_at(alloc, value, place)? {
        NodeType::Identifier => Ok(ModuleNameText::Name(identifier_name(value)?)),
        NodeType::Literal => Ok(ModuleNameText::Text(literal_text(value, place)?)),
        _ => Err(place.fault()),
    }
}

/// A name that is no node, or null.
#[tactic(auto, unfolding(json_text::specs::Plain::read_or_null), using(crate::proofs::Steps::fails_bind))]
pub fn optional_name_field<'t>(
    alloc: Global,
    node: &Value<'t>,
    place: Place,
) -> Result<Option<&'t str>, TreeError>
    ensures { Gives (λ o. option_map (λ s. s.now) o) result
        (reading.read_or_null (reading.read_name (fault_at place)) (get place.field.now (view node.now))) }
{
    match node.get(place.field) {
        None | Some(Value::Null) => Ok(None),
        Some(_) => Ok(Some(name_field(alloc, node, place)?)),
    }
}

/// A name under which a module exports, or null.
#[tactic(auto, unfolding(json_text::specs::Plain::read_or_null), using(crate::proofs::Steps::fails_bind))]
pub fn optional_module_name_field<'t>(
    alloc: Global,
    node: &Value<'t>,
    place: Place,
) -> Result<Option<ModuleNameText<'t>>, TreeError>
    ensures { Gives (λ o. option_map module_name_view o) result
        (reading.read_or_null (reading.read_module_name (fault_at place)) (get place.field.now (view node.now))) }
{
    match node.get(place.field) {
        None | Some(Value::Null) => Ok(None),
        Some(_) => Ok(Some(module_name_field(alloc, node, place)?)),
    }
}
