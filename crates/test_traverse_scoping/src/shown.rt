// What is printed.
ghost use Rattle.std.specs.Prelude.{◌<◌, length};

use js_syntax::{NodeKind, ReferenceId, ScopeId, SymbolId};
use js_traverse::TraverseScoping;
use js_tree::Node;
use scope_table::Scoping;
use std::alloc::AllocError;

pub(crate) fn append_no(printed: &mut String) -> Result<(), AllocError> {
    printed.push_str(" no")
}

pub(crate) fn append_number(number: u32, printed: &mut String) -> Result<(), AllocError> {
    write!(printed, " {number}")
}

pub(crate) fn append_symbol_id(
    symbol: Option<SymbolId>,
    printed: &mut String,
) -> Result<(), AllocError> {
    match symbol {
        Some(symbol) => append_number(symbol.0, printed),
        None => printed.push_str(" -"),
    }
}

fn append_references(ids: &[ReferenceId], printed: &mut String) -> Result<(), AllocError> {
    printed.push_str(" [")?;
    for id in ids {
        append_number(id.0, printed)?;
    }
    printed.push_str(" ]")
}

fn append_kind(kind: &NodeKind, printed: &mut String) -> Result<(), AllocError> {
    match kind {
        NodeKind::ReferenceName(name) => append_word("reference", name.as_str(), printed),
        NodeKind::TargetName(name) => append_word("target", name.as_str(), printed),
        NodeKind::BindingName(name) => append_word("binding", name.as_str(), printed),
        _ => printed.push_str(" other"),
    }
}

// A node of a name: its word, its name, its number and where its span begins and ends.
pub(crate) fn append_node(node: &Node, printed: &mut String) -> Result<(), AllocError> {
    append_kind(node.kind(), printed)?;
    if let Some(id) = node.id() {
        append_number(id, printed)?;
    }
    let span = node.span();
    append_number(span.start, printed)?;
    append_number(span.end, printed)
}

fn append_word(word: &str, name: &str, printed: &mut String) -> Result<(), AllocError> {
    write!(printed, " {word} {name}")
}

// The scope around one.
pub(crate) fn append_parent(
    scoping: &Scoping,
    scope: ScopeId,
    printed: &mut String,
) -> Result<(), AllocError> {
    if scope.0 as usize >= scoping.scopes_len() {
        return append_no(printed);
    }
    match scoping.scope_parent_id(scope) {
        Some(parent) => append_number(parent.0, printed),
        None => printed.push_str(" -"),
    }
}

// What lists a symbol has.
pub(crate) fn append_list(
    scoping: &Scoping,
    symbol: SymbolId,
    printed: &mut String,
) -> Result<(), AllocError> {
    if symbol.0 as usize >= scoping.symbols_len() {
        return append_no(printed);
    }
    append_references(scoping.get_resolved_reference_ids(symbol), printed)
}

// The names that nothing declares.
pub(crate) fn append_names(scoping: &Scoping, printed: &mut String) -> Result<(), AllocError> {
    for item in scoping.root_unresolved_references() {
        let name = item.name();
        write!(printed, " {name}")?;
        append_references(item.references(), printed)?;
    }
    Ok(())
}

// A scope and those around it.
pub(crate) fn append_ancestors(
    traverse: &TraverseScoping,
    printed: &mut String,
) -> Result<(), AllocError> {
    for scope in traverse.ancestor_scopes() {
        append_number(scope.0, printed)?;
    }
    Ok(())
}
