// Fields that a node's kind keeps, with their texts copied.
ghost use Rattle.std.specs.Prelude.{◌≡◌, codes};
ghost use Rattle.serde_json.specs.Find.{get};
ghost use Rattle.json_value.specs.View.{view};
ghost use Rattle.json_text.specs.Answer.{Gives};
ghost use Rattle.json_text.specs.Plain as reading;
ghost use Rattle.json_table.specs.View.{keys_view};
ghost use Rattle.json_scan.specs.Place.{fault_at};
ghost use Rattle.json_scan.specs.Scan.{key_alone};

use js_syntax::{Ident, Key, LiteralValue, ModuleName, NodeType, RegExpText, TemplateText, Text};
use json_scan::{
    KeyText, LiteralText, ModuleNameText, Place, identifier_key, is_computed, literal_key,
    literal_value, module_name_field, name_field, optional_module_name_field, optional_name_field,
    reg_exp_field, source_field, takes_literal, takes_private, template_field, text_field, type_at,
};
use json_table::Keys;
use json_text::TreeError;
use json_value::Value;
use std::alloc::Global;

/// The text of a name.
pub fn ident(alloc: Global, node: &Value<'_>, place: Place) -> Result<Ident, TreeError>
    ensures { Gives (λ s. s) result (reading.read_text (fault_at place) (get place.field.now (view node.now))) }
{
    let text = text_field(node, place.field, place)?;
    Ok(Ident::new(String::from_str(alloc, text)?))
}

/// A text.
pub fn text(alloc: Global, node: &Value<'_>, place: Place) -> Result<Text, TreeError>
    ensures { Gives (λ s. s) result (reading.read_text (fault_at place) (get place.field.now (view node.now))) }
{
    let text = text_field(node, place.field, place)?;
    Ok(Text::new(String::from_str(alloc, text)?))
}

/// The value of a literal.
pub fn value(alloc: Global, node: &Value<'_>, place: Place) -> Result<LiteralValue, TreeError>
    ensures { Gives (λ v. v) result (reading.read_value (fault_at place) (get (codes "raw") (view node.now)) (get place.field.now (view node.now))) }
{
    match literal_value(node, place)? {
        LiteralText::Null => Ok(LiteralValue::Null),
        LiteralText::Boolean(flag) => Ok(LiteralValue::Boolean(flag)),
        LiteralText::Number(number) => Ok(LiteralValue::Number(number)),
        LiteralText::Text(text) => Ok(LiteralValue::Text(Text::new(String::from_str(
            alloc, text,
        )?))),
    }
}

/// A name that is no node.
pub fn name(alloc: Global, node: &Value<'_>, place: Place) -> Result<Ident, TreeError>
    ensures { Gives (λ s. s) result (reading.read_name (fault_at place) (get place.field.now (view node.now))) }
{
    let name = name_field(alloc, node, place)?;
    Ok(Ident::new(String::from_str(alloc, name)?))
}

/// A name that is no node, or null.
pub fn optional_name(
    alloc: Global,
    node: &Value<'_>,
    place: Place,
) -> Result<Option<Ident>, TreeError>
    ensures { Gives (λ o. o) result (reading.read_or_null (reading.read_name (fault_at place)) (get place.field.now (view node.now))) }
{
    match optional_name_field(alloc, node, place)? {
        None => Ok(None),
        Some(name) => Ok(Some(Ident::new(String::from_str(alloc, name)?))),
    }
}

/// A text that names a module.
pub fn source(alloc: Global, node: &Value<'_>, place: Place) -> Result<Text, TreeError>
    ensures { Gives (λ s. s) result (reading.read_source (fault_at place) (get place.field.now (view node.now))) }
{
    let source = source_field(alloc, node, place)?;
    Ok(Text::new(String::from_str(alloc, source)?))
}

/// A name under which a module imports or exports.
pub fn module_name(alloc: Global, node: &Value<'_>, place: Place) -> Result<ModuleName, TreeError>
    ensures { Gives (λ m. m) result (reading.read_module_name (fault_at place) (get place.field.now (view node.now))) }
{
    match module_name_field(alloc, node, place)? {
        ModuleNameText::Name(name) => Ok(ModuleName::Name(Ident::new(String::from_str(
            alloc, name,
        )?))),
        ModuleNameText::Text(text) => Ok(ModuleName::Text(Text::new(String::from_str(
            alloc, text,
        )?))),
    }
}

/// A name under which a module exports, or null.
pub fn optional_module_name(
    alloc: Global,
    node: &Value<'_>,
    place: Place,
) -> Result<Option<ModuleName>, TreeError>
    ensures { Gives (λ o. o) result (reading.read_or_null (reading.read_module_name (fault_at place)) (get place.field.now (view node.now))) }
{
    match optional_module_name_field(alloc, node, place)? {
        None => Ok(None),
        Some(ModuleNameText::Name(name)) => Ok(Some(ModuleName::Name(Ident::new(String::from_str(
            alloc, name,
        )?)))),
        Some(ModuleNameText::Text(text)) => Ok(Some(ModuleName::Text(Text::new(String::from_str(
            alloc, text,
        )?)))),
    }
}

/// A text of a template: as it is written, and its value.
pub fn template_text(
    alloc: Global,
    node: &Value<'_>,
    place: Place,
) -> Result<TemplateText, TreeError>
    ensures { Gives (λ t. t) result (reading.read_template_text (fault_at place) (get place.field.now (view node.now))) }
{
    let (raw, cooked) = template_field(node, place)?;
    let raw = Text::new(String::from_str(alloc, raw)?);
    match cooked {
        None => Ok(TemplateText { raw, cooked: None }),
        Some(text) => {
            let text = Text::new(String::from_str(alloc, text)?);
            Ok(TemplateText {
                raw,
                cooked: Some(text),
            })
        }
    }
}

/// A regular expression.
pub fn reg_exp_text(alloc: Global, node: &Value<'_>, place: Place) -> Result<RegExpText, TreeError>
    ensures { Gives (λ t. t) result (reading.read_reg_exp_text (fault_at place) (get place.field.now (view node.now))) }
{
    let (pattern, flags) = reg_exp_field(node, place)?;
    let pattern = Text::new(String::from_str(alloc, pattern)?);
    let flags = Text::new(String::from_str(alloc, flags)?);
    Ok(RegExpText { pattern, flags })
}

/// A key; one that is a node is not looked at.
#[tactic(auto, using(json_scan::proofs::Steps::fails_bind))]
pub fn key(alloc: Global, node: &Value<'_>, keys: Keys, place: Place) -> Result<Key, TreeError>
    ensures { Gives (λ k. k) result (key_alone (keys_view keys) (reading.is_true_at (get (codes "computed") (view node.now))) (fault_at place) (get place.field.now (view node.now))) }
{
    let Some(found) = node.get(place.field) else {
        return Err(place.fault());
    };
    if is_computed(node) {
        return Ok(Key::Below);
    }
    match type_at(alloc, found, place)? {
        NodeType::Identifier => {
            let name = identifier_key(found)?;
            Ok(Key::Name(Ident::new(String::from_str(alloc, name)?)))
        }
        NodeType::Literal if takes_literal(keys) => match literal_key(found, place)? {
            KeyText::Text(text) => Ok(Key::Text(Text::new(String::from_str(alloc, text)?))),
            KeyText::Number(number) => Ok(Key::Number(number)),
        },
        NodeType::PrivateIdentifier if takes_private(keys) => Ok(Key::Below),
        _ => Err(place.fault()),
    }
}
