// Words, of which a field holds one.
ghost use Rattle.serde_json.specs.Find.{get};
ghost use Rattle.json_value.specs.View.{view};
ghost use Rattle.js_syntax.specs.Word.{source_types, variable_kinds, method_kinds, property_kinds, unary_operators, update_operators, binary_operators, logical_operators, assignment_operators};
ghost use Rattle.json_text.specs.Answer.{Gives};
ghost use Rattle.json_text.specs.Plain.{read_word};
ghost use Rattle.json_scan.specs.Place.{fault_at};

use crate::place::Place;
use js_syntax::{
    AssignmentOperator, BinaryOperator, LogicalOperator, MethodKind, PropertyKind, SourceType,
    UnaryOperator, UpdateOperator, VariableKind,
};
use json_text::TreeError;
use json_value::Value;

#[tactic(auto, unfolding(json_text::specs::Plain::read_word))]
pub fn source_type_field(node: &Value<'_>, place: Place) -> Result<SourceType, TreeError>
    ensures { Gives (λ w. w) result (read_word source_types (fault_at place) (get place.field.now (view node.now))) }
{
    let Some(Value::String(text)) = node.get(place.field) else {
        return Err(place.fault());
    };
    match SourceType::named(*text) {
        Some(word) => Ok(word),
        None => Err(place.fault()),
    }
}

#[tactic(auto, unfolding(json_text::specs::Plain::read_word))]
pub fn variable_kind_field(node: &Value<'_>, place: Place) -> Result<VariableKind, TreeError>
    ensures { Gives (λ w. w) result (read_word variable_kinds (fault_at place) (get place.field.now (view node.now))) }
{
    let Some(Value::String(text)) = node.get(place.field) else {
        return Err(place.fault());
    };
    match VariableKind::named(*text) {
        Some(word) => Ok(word),
        None => Err(place.fault()),
    }
}

#[tactic(auto, unfolding(json_text::specs::Plain::read_word))]
pub fn method_kind_field(node: &Value<'_>, place: Place) -> Result<MethodKind, TreeError>
    ensures { Gives (λ w. w) result (read_word method_kinds (fault_at place) (get place.field.now (view node.now))) }
{
    let Some(Value::String(text)) = node.get(place.field) else {
        return Err(place.fault());
    };
    match MethodKind::named(*text) {
        Some(word) => Ok(word),
        None => Err(place.fault()),
    }
}

#[tactic(auto, unfolding(json_text::specs::Plain::read_word))]
pub fn property_kind_field(node: &Value<'_>, place: Place) -> Result<PropertyKind, TreeError>
    ensures { Gives (λ w. w) result (read_word property_kinds (fault_at place) (get place.field.now (view node.now))) }
{
    let Some(Value::String(text)) = node.get(place.field) else {
        return Err(place.fault());
    };
    match PropertyKind::named(*text) {
        Some(word) => Ok(word),
        None => Err(place.fault()),
    }
}

#[tactic(auto, unfolding(json_text::specs::Plain::read_word))]
pub fn unary_operator_field(node: &Value<'_>, place: Place) -> Result<UnaryOperator, TreeError>
    ensures { Gives (λ w. w) result (read_word unary_operators (fault_at place) (get place.field.now (view node.now))) }
{
    let Some(Value::String(text)) = node.get(place.field) else {
        return Err(place.fault());
    };
    match UnaryOperator::named(*text) {
        Some(word) => Ok(word),
        None => Err(place.fault()),
    }
}

#[tactic(auto, unfolding(json_text::specs::Plain::read_word))]
pub fn update_operator_field(node: &Value<'_>, place: Place) -> Result<UpdateOperator, TreeError>
    ensures { Gives (λ w. w) result (read_word update_operators (fault_at place) (get place.field.now (view node.now))) }
{
    let Some(Value::String(text)) = node.get(place.field) else {
        return Err(place.fault());
    };
    match UpdateOperator::named(*text) {
        Some(word) => Ok(word),
        None => Err(place.fault()),
    }
}

#[tactic(auto, unfolding(json_text::specs::Plain::read_word))]
pub fn binary_operator_field(node: &Value<'_>, place: Place) -> Result<BinaryOperator, TreeError>
    ensures { Gives (λ w. w) result (read_word binary_operators (fault_at place) (get place.field.now (view node.now))) }
{
    let Some(Value::String(text)) = node.get(place.field) else {
        return Err(place.fault());
    };
    match BinaryOperator::named(*text) {
        Some(word) => Ok(word),
        None => Err(place.fault()),
    }
}

#[tactic(auto, unfolding(json_text::specs::Plain::read_word))]
pub fn logical_operator_field(node: &Value<'_>, place: Place) -> Result<LogicalOperator, TreeError>
    ensures { Gives (λ w. w) result (read_word logical_operators (fault_at place) (get place.field.now (view node.now))) }
{
    let Some(Value::String(text)) = node.get(place.field) else {
        return Err(place.fault());
    };
    match LogicalOperator::named(*text) {
        Some(word) => Ok(word),
        None => Err(place.fault()),
    }
}

#[tactic(auto, unfolding(json_text::specs::Plain::read_word))]
pub fn assignment_operator_field(
    node: &Value<'_>,
    place: Place,
) -> Result<AssignmentOperator, TreeError>
    ensures { Gives (λ w. w) result (read_word assignment_operators (fault_at place) (get place.field.now (view node.now))) }
{
    let Some(Value::String(text)) = node.get(place.field) else {
        return Err(place.fault());
    };
    match AssignmentOperator::named(*text) {
        Some(word) => Ok(word),
        None => Err(place.fault()),
    }
}
