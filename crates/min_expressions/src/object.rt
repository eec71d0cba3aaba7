// What is left of an object literal of which nobody takes the value: of each property its key, if that is an expression, and its value,
// where these act. There may be more of them than properties, so they come to stand in a new row.
ghost use Rattle.std.specs.Prelude.{◌≡◌, ◌≤◌, ◌+◌, ◌*◌, [], ◌∷◌, ◌++◌, length, not, Some, true, vec_len, vec_capacity, OnOk, OnErr, IfOk};
ghost use Rattle.std.specs.Option.{option_map};
ghost use Rattle.js_syntax.specs.declared.node_kind.NodeKind.TheVariants.{Property as property};
ghost use Rattle.js_syntax.specs.Core as core;
ghost use Rattle.js_syntax.specs.Node.{forest_of, row};
ghost use Rattle.js_effects.specs.Each.{width};
ghost use Rattle.js_effects.specs.Kinds as kinds;
ghost use Rattle.min_context.specs.Edited.{Edited};
ghost use Rattle.steps.specs.Allowed.UnusedList.{acting};
ghost use Rattle.steps.specs.Allowed.UnusedObject as unused;
ghost use Rattle.rules.specs.Expressions.Lists.{new_note, list_note};
ghost use Rattle.rules.specs.Expressions.Uses.{spot_of};
ghost use Rattle.min_expressions.specs.Kept.{child_at};
ghost use Rattle.min_expressions.specs.Lists.{only, told_found, none, found_with, are_one};
ghost use Rattle.min_expressions.specs.Objects.{pair_of, in_pairs, all_pairs, pair_found, all_found, properties_go, list_goes, parts_go, object_goes, count_of};

use crate::bare::stands_bare;
use crate::kept::take_at;
use crate::list::{Found, found_also, is_enough, left_of, only};
use crate::unused::acts;
use crate::uses::{Use, is_unused_from};
use js_effects::{BareContext, ValueType, value_type};
use js_syntax::{Key, NodeKind, PropertyKind};
use js_tree::{Node, take};
use min_context::MinifierTraverseCtx;
use std::alloc::{AllocError, Global};

// ---- one property

// A key that is no node and doesn't set the prototype (ECMA-262 B.3.1).
fn is_plain_key(key: &Key) -> bool
    ensures { result ≡ core.is_plain_key key.now }
{
    match key {
        Key::Name(name) => name.as_str() != "__proto__",
        Key::Text(text) => text.as_str() != "__proto__",
        Key::Number(_) => true,
        Key::Below => false,
    }
}

fn is_plain_property(how: PropertyKind, key: &Key) -> bool
    ensures { result ≡ core.is_plain_property how key.now }
{
    match how {
        PropertyKind::Init => is_plain_key(key),
        _ => false,
    }
}

fn is_primitive(value: ValueType) -> bool
    ensures { result ≡ kinds.is_primitive value }
{
    !matches!(value, ValueType::Object | ValueType::Undetermined)
}

// A key that is an expression, and gives a primitive value as its form tells.
fn is_computed(how: PropertyKind, key: &Key, node: &Node, alloc: Global) -> bool
    ensures { result ≡ unused.is_computed how key.now (forest_of node.now) }
{
    match how {
        PropertyKind::Init => match key {
            Key::Below => is_primitive(value_type(node, &BareContext::new(alloc))),
            _ => false,
        },
        _ => false,
    }
}

// Whether a key or a value may come out of its property.
fn comes_out(is_method: bool, part: &Node) -> bool
    ensures { result ≡ unused.comes_out is_method part.now.kind part.now.note part.now.below }
{
    !acts(part) || (!is_method && stands_bare(Use::Value, false, part))
}

fn parts_come_out(
    how: PropertyKind,
    is_method: bool,
    key: &Key,
    children: &[Option<Node>],
    alloc: Global,
) -> bool
    ensures { result ≡ unused.comes_apart (property how is_method key.now) (row children.now) }
{
    match children {
        [None, Some(value)] => is_plain_property(how, key) && comes_out(is_method, value),
        [Some(name), Some(value)] => {
            is_computed(how, key, name, alloc)
                && (comes_out(is_method, name) && comes_out(is_method, value))
        }
        [] => false,
        [None] => false,
        [Some(_)] => false,
        [None, None, ..] => false,
        [Some(_), None, ..] => false,
        [None, Some(_), None, ..] => false,
        [None, Some(_), Some(_), ..] => false,
        [Some(_), Some(_), None, ..] => false,
        [Some(_), Some(_), Some(_), ..] => false,
    }
}

// Whether a property does nothing beside its parts, and these may come out of it where they act.
fn comes_apart(node: &Node, alloc: Global) -> bool
    ensures { result ≡ unused.comes_apart node.now.kind node.now.below }
{
    match node.kind() {
        NodeKind::Property {
            kind: how,
            is_method,
            key,
        } => parts_come_out(*how, *is_method, key, node.children(), alloc),
        _ => false,
    }
}

#[tactic(auto, using(crate::proofs::Objects::other_is))]
fn is_other(item: &Option<Node>, alloc: Global) -> bool
    ensures { result ≡ not (unused.all_come_apart (row (item.now ∷ []))) }
{
    match item {
        Some(node) => !comes_apart(node, alloc),
        None => true,
    }
}

// ---- whether it becomes anything

fn all_come_apart(properties: &[Option<Node>], alloc: Global) -> bool
    ensures { result ≡ unused.all_come_apart (row properties.now) }
{
    for property in properties {
        if is_other(property, alloc) {
            return false;
        }
    }
    true
}

fn first(children: &[Option<Node>]) -> Option<&Node>
    ensures { option_map (λ v. v.now) result ≡ child_at 0 (row children.now) }
{
    match children {
        [Some(child), ..] => Some(child),
        [] => None,
        [None, ..] => None,
    }
}

fn second(children: &[Option<Node>]) -> Option<&Node>
    ensures { option_map (λ v. v.now) result ≡ child_at 1 (row children.now) }
{
    match children {
        [None, Some(child), ..] => Some(child),
        [Some(_), Some(child), ..] => Some(child),
        [] => None,
        [None] => None,
        [Some(_)] => None,
        [None, None, ..] => None,
        [Some(_), None, ..] => None,
    }
}

fn found_part(found: Found, part: Option<&Node>) -> Found
    ensures { told_found result ≡ found_with (told_found found) (option_map (λ v. v.now) part.entry) }
{
    match part {
        Some(node) => found_also(found, node),
        None => found,
    }
}

fn found_pair(found: Found, item: &Option<Node>) -> Found
    ensures { told_found result ≡ pair_found (told_found found) item.now }
{
    match item {
        Some(node) => {
            let found = found_part(found, first(node.children()));
            found_part(found, second(node.children()))
        }
        None => found,
    }
}

fn found_in(properties: &[Option<Node>]) -> Found
    ensures { told_found result ≡ all_found none properties.now }
{
    let mut found = Found::Nothing;
    for property in properties {
        found = found_pair(found, property);
    }
    found
}

// Whether the keys and values that act are one expression.
#[tactic(auto, using(crate::proofs::Objects::enough_parts))]
fn are_one(properties: &[Option<Node>]) -> bool
    ensures { result ≡ are_one (acting (in_pairs (row properties.now))) }
{
    is_enough(found_in(properties))
}

fn properties_go(list: &Node, alloc: Global) -> bool
    ensures { result ≡ properties_go list.now.kind list.now.below }
{
    match list.kind() {
        NodeKind::Properties => all_come_apart(list.children(), alloc) && are_one(list.children()),
        _ => false,
    }
}

fn list_goes(children: &[Option<Node>], alloc: Global) -> bool
    ensures { result ≡ list_goes (only (row children.now)) }
{
    match only(children) {
        Some(list) => properties_go(list, alloc),
        None => false,
    }
}

fn parts_go(node: &Node, alloc: Global) -> bool
    ensures { result ≡ parts_go node.now.kind node.now.below }
{
    match node.kind() {
        NodeKind::ObjectExpression => list_goes(node.children(), alloc),
        _ => false,
    }
}

// Whether an object, where the walk is, becomes what acts of it.
pub(crate) fn object_goes(node: &Node, ctx: &MinifierTraverseCtx) -> bool
    ensures { result ≡ object_goes (spot_of ctx.now.place) node.now.kind node.now.below }
{
    is_unused_from(ctx.ancestors_above()) && parts_go(node, ctx.alloc())
}

// ---- the parts come to stand in a row of their own

#[tactic(auto, using(crate::proofs::Objects::first_is, crate::proofs::Objects::none_in, crate::proofs::Objects::second_stays))]
fn take_first(children: &mut [Option<Node>]) -> Option<Node>
    ensures taken { result ≡ child_at 0 (row children.old) }
    ensures left { child_at 1 (row children.new) ≡ child_at 1 (row children.old) }
{
    if children.is_empty() {
        None
    } else {
        take_at(children, 0)
    }
}

#[tactic(auto, using(crate::proofs::Objects::second_is, crate::proofs::Objects::no_second))]
fn take_second(children: &mut [Option<Node>]) -> Option<Node>
    ensures { result ≡ child_at 1 (row children.old) }
{
    if children.len() < 2 {
        None
    } else {
        take_at(children, 1)
    }
}

fn take_both(children: &mut [Option<Node>]) -> (Option<Node>, Option<Node>)
    ensures { result ≡ (child_at 0 (row children.old), child_at 1 (row children.old)) }
{
    let first = take_first(children);
    let second = take_second(children);
    (first, second)
}

fn take_pair(property: Node) -> (Option<Node>, Option<Node>)
    ensures { result ≡ (child_at 0 property.below, child_at 1 property.below) }
{
    let mut children = property.into_children();
    take_both(&mut children)
}

fn push_two(parts: &mut Vec<Option<Node>>, first: Option<Node>, second: Option<Node>)
    requires room { vec_len parts.old + 2 ≤ vec_capacity parts.old }
    ensures pushed { parts.new.items ≡ parts.old.items ++ first ∷ second ∷ [] }
    ensures len { vec_len parts.new ≡ vec_len parts.old + 2 }
    ensures capacity { vec_capacity parts.new ≡ vec_capacity parts.old }
{
    parts.push_reserved(first);
    parts.push_reserved(second);
}

fn push_pair(parts: &mut Vec<Option<Node>>, place: &mut Option<Node>)
    requires room { vec_len parts.old + 2 ≤ vec_capacity parts.old }
    ensures pushed { parts.new.items ≡ parts.old.items ++ pair_of place.old }
    ensures len { vec_len parts.new ≤ vec_len parts.old + 2 }
    ensures capacity { vec_capacity parts.new ≡ vec_capacity parts.old }
{
    if let Some(property) = take(place) {
        let (key, value) = take_pair(property);
        push_two(parts, key, value);
    }
}

fn push_all(parts: &mut Vec<Option<Node>>, places: &mut [Option<Node>])
    requires room { vec_len parts.old + 2 * length places.old ≤ vec_capacity parts.old }
    ensures { parts.new.items ≡ parts.old.items ++ all_pairs places.old }
{
    for place in places.iter_mut() {
        push_pair(parts, place);
    }
}

// The keys and values of a list of properties, in a row that has room for them.
fn with_parts(list: Node, mut parts: Vec<Option<Node>>) -> Node
    requires empty { parts.items ≡ [] }
    requires room { 2 * width list.below ≤ vec_capacity parts }
    ensures note { new_note result.note ≡ new_note list.note }
    ensures below { result.below ≡ in_pairs list.below }
{
    let span = list.span();
    let mut properties = list.into_children();
    push_all(&mut parts, &mut properties);
    Node::new(NodeKind::Expressions, span, parts)
}

// What acts of the keys and values takes the place of the whole. The context is told of the others.
fn keep_parts(node: &mut Node, parts: Vec<Option<Node>>, ctx: &mut MinifierTraverseCtx)
    requires goes { parts_go node.old.kind node.old.below ≡ true }
    requires empty { parts.items ≡ [] }
    requires room { 2 * count_of (only node.old.below) ≤ vec_capacity parts }
    ensures kept { unused.object_becomes (new_note node.old.note) (new_note (list_note node.old.below)) node.old.kind node.old.below ≡ Some node.new }
    ensures edited { Edited ctx.old node.old node.new true ctx.new }
{
    let span = node.span();
    let mut children = node.replace_children(Vec::new(ctx.alloc()));
    if let Some(list) = take_at(children.as_mut_slice(), 0) {
        let in_turn = with_parts(list, parts);
        let left = left_of(span, children, in_turn, ctx);
        ctx.replace_expression(node, left);
    }
}

fn count_in(children: &[Option<Node>]) -> usize
    ensures { result ≡ count_of (only (row children.now)) }
{
    match only(children) {
        Some(list) => list.children().len(),
        None => 0,
    }
}

// A row with room for a key and a value of each property.
fn room_for(node: &Node, alloc: Global) -> Result<Vec<Option<Node>>, AllocError>
    ensures empty { IfOk result (λ parts. parts.items ≡ []) }
    ensures room { IfOk result (λ parts. 2 * count_of (only node.now.below) ≤ vec_capacity parts) }
{
    match count_in(node.children()).checked_mul(2) {
        Some(room) => Vec::with_capacity(alloc, room),
        None => Err(AllocError),
    }
}

// The same, in a new row, which takes memory. After an error all is as it was.
pub(crate) fn keep_object(node: &mut Node, ctx: &mut MinifierTraverseCtx) -> Result<(), AllocError>
    requires goes { parts_go node.old.kind node.old.below ≡ true }
    ensures kept { OnOk result (unused.object_becomes (new_note node.old.note) (new_note (list_note node.old.below)) node.old.kind node.old.below ≡ Some node.new) }
    ensures edited { OnOk result (Edited ctx.old node.old node.new true ctx.new) }
    ensures refused { OnErr result ((node.new ≡ node.old) × (ctx.new ≡ ctx.old)) }
{
    let parts = room_for(node, ctx.alloc())?;
    keep_parts(node, parts, ctx);
    Ok(())
}
