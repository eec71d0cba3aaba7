// Fields that a node's kind keeps, and that are no nodes.
ghost use Rattle.std.specs.Prelude.{◌≡◌, codes, Option};
ghost use Rattle.std.specs.Option.{option_map};
ghost use Rattle.serde_json.specs.Find.{get};
ghost use Rattle.json_value.specs.View.{view};
ghost use Rattle.json_text.specs.Answer.{Gives};
ghost use Rattle.json_text.specs.Plain as reading;
ghost use Rattle.js_syntax.specs.declared.value.TemplateText.{TemplateText};
ghost use Rattle.js_syntax.specs.declared.value.RegExpText.{RegExpText};
ghost use Rattle.json_scan.specs.Place.{fault_at};
ghost use Rattle.json_scan.specs.Scalar.{value_view};

use crate::place::Place;
use json_text::TreeError;
use json_value::Value;

/// A text.
#[tactic(auto, unfolding(json_text::specs::Plain::read_text))]
pub fn text_field<'t>(node: &Value<'t>, field: &str, place: Place) -> Result<&'t str, TreeError>
    ensures { Gives (λ s. s.now) result
        (reading.read_text (fault_at place) (get field.now (view node.now))) }
{
    match node.get(field) {
        Some(Value::String(text)) => Ok(*text),
        _ => Err(place.fault()),
    }
}

/// A flag; a missing one is false.
#[tactic(auto, unfolding(json_text::specs::Plain::read_flag))]
pub fn flag_field(node: &Value<'_>, place: Place) -> Result<bool, TreeError>
    ensures { Gives (λ b. b) result
        (reading.read_flag (fault_at place) (get place.field.now (view node.now))) }
{
    match node.get(place.field) {
        Some(Value::Bool(flag)) => Ok(*flag),
        None => Ok(false),
        _ => Err(place.fault()),
    }
}

/// A mark: what isn't true is false.
pub fn is_marked(node: &Value<'_>, field: &str) -> bool
    ensures { result ≡ reading.is_true_at (get field.now (view node.now)) }
{
    match node.get(field) {
        Some(Value::Bool(flag)) => *flag,
        _ => false,
    }
}

/// The value of a literal, whose text isn't copied yet.
#[derive(Clone, Copy)]
pub enum LiteralText<'t> {
    Null,
    Boolean(bool),
    Number(i64),
    Text(&'t str),
}

// One more than the greatest number.
const LIMIT: i64 = 9_007_199_254_740_992;

/// The value of a literal.
#[tactic(auto, unfolding(json_text::specs::Plain::read_value))]
pub fn literal_value<'t>(node: &Value<'t>, place: Place) -> Result<LiteralText<'t>, TreeError>
    ensures { Gives value_view result
        (reading.read_value (fault_at place) (get (codes "raw") (view node.now)) (get place.field.now (view node.now))) }
{
    match node.get(place.field) {
        Some(Value::Null) => match node.get("raw") {
            Some(Value::String(raw)) if *raw != "null" => Err(TreeError::NumberOutOfRange),
            _ => Ok(LiteralText::Null),
        },
        Some(Value::Bool(flag)) => Ok(LiteralText::Boolean(*flag)),
        Some(Value::Number(number)) => match number.as_i64() {
            Some(n) if -LIMIT < n && n < LIMIT => Ok(LiteralText::Number(n)),
            _ => Err(TreeError::NumberOutOfRange),
        },
        Some(Value::String(text)) => Ok(LiteralText::Text(*text)),
        _ => Err(place.fault()),
    }
}

// A text, or null.
#[tactic(auto, unfolding(json_text::specs::Plain::read_text_or_null, json_text::specs::Plain::read_text))]
fn optional_text_field<'t>(
    node: &Value<'t>,
    field: &str,
    place: Place,
) -> Result<Option<&'t str>, TreeError>
    ensures { Gives (λ o. option_map (λ s. s.now) o) result
        (reading.read_text_or_null (fault_at place) (get field.now (view node.now))) }
{
    match node.get(field) {
        Some(Value::Null) => Ok(None),
        Some(Value::String(text)) => Ok(Some(*text)),
        _ => Err(place.fault()),
    }
}

/// A text of a template: as it is written, and its value.
#[tactic(auto, unfolding(json_text::specs::Plain::read_template_text), using(crate::proofs::Steps::fails_bind))]
pub fn template_field<'t>(
    node: &Value<'t>,
    place: Place,
) -> Result<(&'t str, Option<&'t str>), TreeError>
    ensures { Gives (λ p. record { raw = p.0.now; cooked = option_map (λ s. s.now) p.1 }) result
        (reading.read_template_text (fault_at place) (get place.field.now (view node.now))) }
{
    let Some(value) = node.get(place.field) else {
        return Err(place.fault());
    };
    let raw = text_field(value, "raw", place)?;
    let cooked = optional_text_field(value, "cooked", place)?;
    Ok((raw, cooked))
}

/// A regular expression: its pattern and its flags.
#[tactic(auto, unfolding(json_text::specs::Plain::read_reg_exp_text), using(crate::proofs::Steps::fails_bind))]
pub fn reg_exp_field<'t>(node: &Value<'t>, place: Place) -> Result<(&'t str, &'t str), TreeError>
    ensures { Gives (λ p. record { pattern = p.0.now; flags = p.1.now }) result
        (reading.read_reg_exp_text (fault_at place) (get place.field.now (view node.now))) }
{
    let Some(value) = node.get(place.field) else {
        return Err(place.fault());
    };
    let pattern = text_field(value, "pattern", place)?;
    let flags = text_field(value, "flags", place)?;
    Ok((pattern, flags))
}
