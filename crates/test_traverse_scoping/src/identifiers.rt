// Calls on names with their symbols, and on the nodes that are made of them.
ghost use Rattle.std.specs.Prelude.{◌<◌, Some, length, option_map, IsSome, IfSome};
ghost use Rattle.std.specs.Bool.{OnTrue};
ghost use Rattle.scope_table.specs.Reading.{reference_at};
ghost use Rattle.js_traverse.specs.Identifier.{MayRefer};
ghost use Rattle.js_traverse.specs.Names.{used_name};
ghost use Rattle.js_traverse.specs.Traversed.{IsLive};

use crate::scopes::{Taken, has_room, ident, is_live, number, symbol_in};
use crate::shown::{append_no, append_node, append_number, append_symbol_id};
use js_syntax::{NodeKind, ReferenceId, Span, SymbolId};
use js_traverse::{BoundIdentifier, MaybeBoundIdentifier, TraverseScoping};
use js_tree::Node;
use scope_table::ReferenceFlags;
use std::alloc::{AllocError, Global};

pub(crate) const PLACE: Span = Span { start: 3, end: 7 };

pub(crate) fn may_refer(traverse: &TraverseScoping, symbol: Option<SymbolId>) -> bool
    ensures { OnTrue result (MayRefer (option_map (λ s. s.0) symbol) traverse.now) }
{
    has_room(traverse) && is_live(traverse, symbol)
}

// ---- nodes

fn bound_node(
    bound: &BoundIdentifier,
    word: &str,
    traverse: &mut TraverseScoping,
) -> Result<Option<Node>, AllocError>
    requires { MayRefer (Some bound.now.symbol_id.0) traverse.old }
{
    match word {
        "bound_read_reference" => bound.create_read_reference(traverse).map(Some),
        "bound_expression" => bound
            .create_expression(ReferenceFlags::Write, traverse)
            .map(Some),
        "bound_write_target" => bound.create_write_target(traverse).map(Some),
        "bound_spanned_read_write_simple_target" => bound
            .create_spanned_read_write_simple_target(PLACE, traverse)
            .map(Some),
        _ => Ok(None),
    }
}

fn maybe_node(
    identifier: &MaybeBoundIdentifier,
    word: &str,
    traverse: &mut TraverseScoping,
) -> Result<Option<Node>, AllocError>
    requires { MayRefer (option_map (λ s. s.0) identifier.now.symbol_id) traverse.old }
{
    match word {
        "maybe_read_reference" => identifier.create_read_reference(traverse).map(Some),
        "maybe_spanned_write_expression" => identifier
            .create_spanned_write_expression(PLACE, traverse)
            .map(Some),
        "maybe_read_write_target" => identifier.create_read_write_target(traverse).map(Some),
        "maybe_spanned_simple_target" => identifier
            .create_spanned_simple_target(PLACE, ReferenceFlags::Read, traverse)
            .map(Some),
        _ => Ok(None),
    }
}

fn append_bound_node(
    alloc: Global,
    traverse: &mut TraverseScoping,
    word: &str,
    taken: Taken,
    printed: &mut String,
) -> Result<bool, AllocError> {
    let symbol = SymbolId(number(taken.second));
    if !may_refer(traverse, Some(symbol)) {
        return Ok(false);
    }
    let bound = BoundIdentifier::new(ident(alloc, taken.first)?, symbol);
    let Some(node) = bound_node(&bound, word, traverse)? else {
        return Ok(false);
    };
    append_node(&node, printed)?;
    Ok(true)
}

fn append_maybe_node(
    alloc: Global,
    traverse: &mut TraverseScoping,
    word: &str,
    taken: Taken,
    printed: &mut String,
) -> Result<bool, AllocError> {
    let symbol = symbol_in(taken.second);
    if !may_refer(traverse, symbol) {
        return Ok(false);
    }
    let identifier = MaybeBoundIdentifier::new(ident(alloc, taken.first)?, symbol);
    let Some(node) = maybe_node(&identifier, word, traverse)? else {
        return Ok(false);
    };
    append_node(&node, printed)?;
    Ok(true)
}

// ---- names that are declared

// An identifier, made to a node and read back.
fn append_declared(
    alloc: Global,
    bound: &BoundIdentifier,
    printed: &mut String,
) -> Result<(), AllocError> {
    let node = bound.create_binding_identifier(alloc)?;
    append_node(&node, printed)?;
    let read = BoundIdentifier::from_binding_ident(alloc, &node)?;
    append_number(read.symbol_id.0, printed)
}

// And as a pattern, then as one that may lack a symbol, and back.
fn append_converted(
    alloc: Global,
    bound: &BoundIdentifier,
    printed: &mut String,
) -> Result<(), AllocError> {
    let pattern = bound.create_binding_pattern(alloc)?;
    append_node(&pattern, printed)?;
    let maybe = bound.to_maybe_bound_identifier(alloc)?;
    append_bound(alloc, &maybe, printed)
}

fn append_bound(
    alloc: Global,
    identifier: &MaybeBoundIdentifier,
    printed: &mut String,
) -> Result<(), AllocError> {
    match identifier.to_bound_identifier(alloc)? {
        Some(bound) => {
            let name = bound.name.as_str();
            let number = bound.symbol_id.0;
            write!(printed, " {name} {number}")
        }
        None => printed.push_str(" unbound"),
    }
}

// ---- references that are read back

fn is_name(node: &Node) -> bool
    ensures { OnTrue result (IsSome (used_name node.now.kind)) }
{
    matches!(node.kind(), NodeKind::ReferenceName(_))
}

// The node is a name, and has the number of a reference that the table has.
fn is_reference(traverse: &TraverseScoping, node: &Node) -> bool
    ensures name { OnTrue result (IsSome (used_name node.now.kind)) }
    ensures reference { OnTrue result (IsSome node.now.note.id) }
    ensures live { OnTrue result (IfSome node.now.note.id (λ id. id < length traverse.now.scoping.references)) }
    ensures symbol { OnTrue result (IfSome node.now.note.id (λ id. IsLive traverse.now.scoping (reference_at traverse.now.scoping id).symbol)) }
{
    let Some(id) = node.id() else {
        return false;
    };
    let scoping = traverse.scoping();
    if id as usize >= scoping.references_len() {
        return false;
    }
    let symbol = scoping.get_reference(ReferenceId(id)).symbol_id();
    is_name(node) && is_live(traverse, symbol)
}

// Which symbol its node refers to; then the reference leaves its list.
fn append_read_back(
    traverse: &mut TraverseScoping,
    node: &Node,
    printed: &mut String,
) -> Result<(), AllocError> {
    if !is_reference(traverse, node) {
        return append_no(printed);
    }
    let identifier = MaybeBoundIdentifier::from_identifier_reference(node, traverse)?;
    append_symbol_id(identifier.symbol_id, printed)?;
    traverse.delete_reference_for_identifier(node);
    Ok(())
}

fn append_resolved(
    alloc: Global,
    traverse: &mut TraverseScoping,
    identifier: &MaybeBoundIdentifier,
    printed: &mut String,
) -> Result<(), AllocError> {
    if !may_refer(traverse, identifier.symbol_id) {
        return append_no(printed);
    }
    let node = identifier.create_read_reference(traverse)?;
    append_read_back(traverse, &node, printed)?;
    append_bound(alloc, identifier, printed)
}

fn append_declared_call(
    alloc: Global,
    taken: Taken,
    printed: &mut String,
) -> Result<(), AllocError> {
    let name = ident(alloc, taken.first)?;
    let bound = BoundIdentifier::new(name, SymbolId(number(taken.second)));
    append_declared(alloc, &bound, printed)?;
    append_converted(alloc, &bound, printed)
}

fn append_resolved_call(
    alloc: Global,
    traverse: &mut TraverseScoping,
    taken: Taken,
    printed: &mut String,
) -> Result<(), AllocError> {
    let name = ident(alloc, taken.first)?;
    let identifier = MaybeBoundIdentifier::new(name, symbol_in(taken.second));
    append_resolved(alloc, traverse, &identifier, printed)
}

/// Whether it is one of these calls; its answer is appended.
pub(crate) fn append_identifier(
    alloc: Global,
    traverse: &mut TraverseScoping,
    word: &str,
    taken: Taken,
    printed: &mut String,
) -> Result<bool, AllocError> {
    let appended = match word {
        "declared" => append_declared_call(alloc, taken, printed),
        "resolved" => append_resolved_call(alloc, traverse, taken, printed),
        _ => return append_nodes(alloc, traverse, word, taken, printed),
    };
    appended?;
    Ok(true)
}

fn append_nodes(
    alloc: Global,
    traverse: &mut TraverseScoping,
    word: &str,
    taken: Taken,
    printed: &mut String,
) -> Result<bool, AllocError> {
    if append_bound_node(alloc, traverse, word, taken, printed)? {
        return Ok(true);
    }
    append_maybe_node(alloc, traverse, word, taken, printed)
}
