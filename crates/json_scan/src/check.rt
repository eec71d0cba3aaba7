// Whether the fields that are no nodes say what they may.
ghost use Rattle.std.specs.Prelude.{◌≡◌, is_some};
ghost use Rattle.serde_json.specs.Find.{get};
ghost use Rattle.json_value.specs.View.{view};
ghost use Rattle.js_syntax.specs.Node.{nothing};
ghost use Rattle.js_syntax.specs.Word.{word_named};
ghost use Rattle.json_text.specs.Answer.{Gives};
ghost use Rattle.json_text.specs.Fault.{fault_of};
ghost use Rattle.json_text.specs.Plain as reading;
ghost use Rattle.json_table.specs.View.{words_view, kept_view, check_view};
ghost use Rattle.json_scan.specs.Place.{fault_at};
ghost use Rattle.json_scan.specs.Outcome.{without_value};
ghost use Rattle.json_scan.specs.Scan.{checked};

use crate::kept::{flag_field, literal_value, reg_exp_field, template_field, text_field};
use crate::name::{
    module_name_field, name_field, optional_module_name_field, optional_name_field, source_field,
};
use crate::node::{is_this, type_at};
use crate::place::{Place, place_of};
use js_syntax::{
    AssignmentOperator, BinaryOperator, LogicalOperator, MethodKind, NodeType, PropertyKind,
    SourceType, UnaryOperator, UpdateOperator, VariableKind,
};
use json_table::{Check, Kept, Words};
use json_text::TreeError;
use json_value::Value;
use std::alloc::Global;

// Whether the list has this word.
fn is_word(words: Words, text: &str) -> bool
    ensures { result ≡ is_some (word_named (words_view words) text.now) }
{
    match words {
        Words::SourceTypes => SourceType::named(text).is_some(),
        Words::VariableKinds => VariableKind::named(text).is_some(),
        Words::MethodKinds => MethodKind::named(text).is_some(),
        Words::PropertyKinds => PropertyKind::named(text).is_some(),
        Words::UnaryOperators => UnaryOperator::named(text).is_some(),
        Words::UpdateOperators => UpdateOperator::named(text).is_some(),
        Words::BinaryOperators => BinaryOperator::named(text).is_some(),
        Words::LogicalOperators => LogicalOperator::named(text).is_some(),
        Words::AssignmentOperators => AssignmentOperator::named(text).is_some(),
    }
}

#[tactic(auto, unfolding(json_text::specs::Plain::read_word))]
fn check_word(node: &Value<'_>, words: Words, place: Place) -> Result<(), TreeError>
    ensures { Gives (λ _. nothing) result
        (checked (reading.read_word (words_view words) (fault_at place) (get place.field.now (view node.now)))) }
{
    match node.get(place.field) {
        Some(Value::String(text)) if is_word(words, *text) => Ok(()),
        _ => Err(place.fault()),
    }
}

/// Whether a field says what the kind keeps of it.
pub fn check_kept(
    alloc: Global,
    node: &Value<'_>,
    kind: NodeType,
    name: &'static str,
    kept: Kept,
) -> Result<(), TreeError>
    ensures { Gives (λ _. nothing) result
        (checked (reading.read_kept (kept_view kept) kind name.now (view node.now))) }
{
    let place = place_of(kind, name);
    match kept {
        Kept::Text => only_checked(text_field(node, name, place)),
        Kept::Flag => only_checked(flag_field(node, place)),
        Kept::Value => only_checked(literal_value(node, place)),
        Kept::Word(words) => check_word(node, words, place),
        Kept::Mark => Ok(()),
        Kept::Name => only_checked(name_field(alloc, node, place)),
        Kept::MaybeName => only_checked(optional_name_field(alloc, node, place)),
        Kept::ModuleName => only_checked(module_name_field(alloc, node, place)),
        Kept::MaybeModuleName => only_checked(optional_module_name_field(alloc, node, place)),
        Kept::Source => only_checked(source_field(alloc, node, place)),
        Kept::TemplateText => {
            template_field(node, place)?;
            Ok(())
        }
        Kept::RegExpText => {
            reg_exp_field(node, place)?;
            Ok(())
        }
    }
}

// What was read, of which only the fault is wanted.
fn only_checked<T: Drop>(read: Result<T, TreeError>) -> Result<(), TreeError>
    ensures { result ≡ without_value read }
{
    match read {
        Ok(_) => Ok(()),
        Err(fault) => Err(fault),
    }
}

/// Whether a field of which the kind keeps nothing says what it may.
#[tactic(auto, unfolding(json_text::specs::Plain::read_check), using(crate::proofs::Steps::fails_bind))]
pub fn check_said(
    alloc: Global,
    node: &Value<'_>,
    check: Check,
    place: Place,
) -> Result<(), TreeError>
    ensures { Gives (λ _. nothing) result
        (checked (reading.read_check (check_view check) (fault_at place) (get place.field.now (view node.now)))) }
{
    match check {
        Check::Never => {
            if flag_field(node, place)? {
                return Err(place.fault());
            }
        }
        Check::Constant(text) => {
            if !is_this(node, place.field, text) {
                return Err(place.fault());
            }
        }
        Check::FixedName(name) => {
            if name_field(alloc, node, place)? != name {
                return Err(place.fault());
            }
        }
        Check::NullOnly => match node.get(place.field) {
            None | Some(Value::Null) => {}
            Some(value) => {
                type_at(alloc, value, place)?;
                return Err(place.fault());
            }
        },
        Check::Hint(_) => {
            flag_field(node, place)?;
        }
        Check::Unread(_) => {}
    }
    Ok(())
}
