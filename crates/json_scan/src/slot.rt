// Where the nodes below a node are to be read.
ghost use Rattle.std.specs.Prelude.{◌≡◌, codes};
ghost use Rattle.serde_json.specs.Find.{get};
ghost use Rattle.json_value.specs.View.{view};
ghost use Rattle.js_syntax.specs.declared.node_kind.NodeKind.TheVariants.{Statements as statements};
ghost use Rattle.json_text.specs.Fault.{fault_of};
ghost use Rattle.json_text.specs.Plain as plain;
ghost use Rattle.json_text.specs.Reading as reading;
ghost use Rattle.json_table.specs.View.{field_view, class_view, list_view, keys_view};
ghost use Rattle.json_scan.specs.Place.{fault_at};
ghost use Rattle.json_scan.specs.Scalar.{one_item, Slots};
ghost use Rattle.json_scan.specs.Scan.{read_field, key_below_of};

use crate::check::{check_kept, check_said};
use crate::name::{identifier_key, literal_key};
use crate::node::{is_text, is_this, type_at};
use crate::place::{Place, place_of};
use js_syntax::NodeType;
use json_table::{Field, Keys, List, Sort, Wanted};
use json_text::TreeError;
use json_value::Value;
use std::alloc::Global;

/// What is to be read of a field: nothing, where it is no node; a node, the nodes of a list or of a
/// body.
#[derive(Clone, Copy)]
pub enum Slot<'v, 't> {
    Scalar,
    Nothing,
    Node(Wanted, &'v Value<'t>),
    Items {
        list: List,
        wanted: Wanted,
        holes: bool,
        items: &'v [Value<'t>],
    },
    Body(Wanted, &'v [Value<'t>]),
}

/// An expression statement with a text `directive`: at the head of a body it is a directive.
#[tactic(auto, unfolding(json_text::specs::Reading::is_directive))]
pub fn is_directive(node: &Value<'_>) -> bool
    ensures { result ≡ reading.is_directive (view node.now) }
{
    is_this(node, "type", "ExpressionStatement") && is_text(node, "directive")
}

/// Whether a key is computed.
pub fn is_computed(node: &Value<'_>) -> bool
    ensures { result ≡ plain.is_true_at (get (codes "computed") (view node.now)) }
{
    matches!(node.get("computed"), Some(Value::Bool(true)))
}

#[tactic(auto, unfolding(json_text::specs::Reading::read_child))]
fn child_slot<'v, 't>(
    node: &'v Value<'t>,
    wanted: Wanted,
    place: Place,
) -> Result<Slot<'v, 't>, TreeError>
    ensures { Slots (λ below. reading.read_child (below (class_view wanted) (fault_at place)) (fault_at place) (get place.field.now (view node.now))) (fault_at place) result }
{
    match node.get(place.field) {
        Some(value) => Ok(Slot::Node(wanted, value)),
        None => Err(place.fault()),
    }
}

#[tactic(auto, unfolding(json_text::specs::Reading::read_maybe))]
fn optional_slot<'v, 't>(
    node: &'v Value<'t>,
    wanted: Wanted,
    place: Place,
) -> Result<Slot<'v, 't>, TreeError>
    ensures { Slots (λ below. reading.read_maybe (below (class_view wanted) (fault_at place)) (get place.field.now (view node.now))) (fault_at place) result }
{
    match node.get(place.field) {
        None | Some(Value::Null) => Ok(Slot::Nothing),
        Some(value) => Ok(Slot::Node(wanted, value)),
    }
}

#[tactic(auto, unfolding(json_text::specs::Reading::read_list))]
fn items_slot<'v, 't>(
    node: &'v Value<'t>,
    list: List,
    wanted: Wanted,
    holes: bool,
    place: Place,
) -> Result<Slot<'v, 't>, TreeError>
    ensures { Slots (λ below. reading.read_list (list_view list) (reading.read_items (one_item holes (below (class_view wanted) (fault_at place)))) (fault_at place) (get place.field.now (view node.now))) (fault_at place) result }
{
    match node.get(place.field) {
        Some(Value::Array(items)) => Ok(Slot::Items {
            list,
            wanted,
            holes,
            items: items.as_slice(),
        }),
        _ => Err(place.fault()),
    }
}

#[tactic(auto, unfolding(json_text::specs::Reading::read_list))]
fn body_slot<'v, 't>(
    node: &'v Value<'t>,
    wanted: Wanted,
    place: Place,
) -> Result<Slot<'v, 't>, TreeError>
    ensures { Slots (λ below. reading.read_list statements (reading.read_body below (class_view wanted) (fault_at place)) (fault_at place) (get place.field.now (view node.now))) (fault_at place) result }
{
    match node.get(place.field) {
        Some(Value::Array(items)) => Ok(Slot::Body(wanted, items.as_slice())),
        _ => Err(place.fault()),
    }
}

// A key is a node where it is computed or private.
#[tactic(auto, unfolding(json_text::specs::Reading::read_key))]
fn key_slot<'v, 't>(
    alloc: Global,
    node: &'v Value<'t>,
    keys: Keys,
    place: Place,
) -> Result<Slot<'v, 't>, TreeError>
    ensures { Slots (λ below. key_below_of below (keys_view keys) (plain.is_true_at (get (codes "computed") (view node.now))) (fault_at place) (get place.field.now (view node.now))) (fault_at place) result }
{
    let Some(key) = node.get(place.field) else {
        return Err(place.fault());
    };
    if is_computed(node) {
        return Ok(Slot::Node(Wanted::Expression, key));
    }
    match type_at(alloc, key, place)? {
        NodeType::Identifier => {
            identifier_key(key)?;
            Ok(Slot::Nothing)
        }
        NodeType::Literal if takes_literal(keys) => {
            literal_key(key, place)?;
            Ok(Slot::Nothing)
        }
        NodeType::PrivateIdentifier if takes_private(keys) => {
            Ok(Slot::Node(Wanted::PrivateKey, key))
        }
        _ => Err(place.fault()),
    }
}

/// Whether a literal may be such a key.
pub fn takes_literal(keys: Keys) -> bool
    ensures { result ≡ plain.takes_literal (keys_view keys) }
{
    match keys {
        Keys::PropertyKey | Keys::ClassKey => true,
        Keys::MemberKey => false,
    }
}

/// Whether a private name may be such a key.
pub fn takes_private(keys: Keys) -> bool
    ensures { result ≡ plain.takes_private (keys_view keys) }
{
    match keys {
        Keys::ClassKey | Keys::MemberKey => true,
        Keys::PropertyKey => false,
    }
}

/// Where what a field holds is to be read; a field that is no node is found to be right.
pub fn slot_of<'v, 't>(
    alloc: Global,
    node: &'v Value<'t>,
    kind: NodeType,
    held: &Field,
) -> Result<Slot<'v, 't>, TreeError>
    ensures { Slots (λ below. read_field below kind (field_view held.now) (view node.now)) (fault_of kind held.now.name.now) result }
{
    let name = held.name;
    let place = place_of(kind, name);
    match held.sort {
        Sort::Keeps(kept) => {
            check_kept(alloc, node, kind, name, kept)?;
            Ok(Slot::Scalar)
        }
        Sort::Checks(check) => {
            check_said(alloc, node, check, place)?;
            Ok(Slot::Scalar)
        }
        Sort::Key(keys) => key_slot(alloc, node, keys, place),
        Sort::Child(wanted) => child_slot(node, wanted, place),
        Sort::Maybe(wanted) => optional_slot(node, wanted, place),
        Sort::Each(list, wanted) => items_slot(node, list, wanted, false, place),
        Sort::EachOrHole(list, wanted) => items_slot(node, list, wanted, true, place),
        Sort::Body(wanted) => body_slot(node, wanted, place),
    }
}
