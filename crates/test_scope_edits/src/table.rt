// What is in a table.
ghost use Rattle.std.specs.Prelude.{◌<◌, length};

use bitflags::Flags;
use js_scoping::Scoping;
use js_syntax::{ReferenceId, ScopeId, SymbolId};
use std::alloc::AllocError;

fn append_references(ids: &[ReferenceId], printed: &mut String) -> Result<(), AllocError> {
    printed.push_str(" [")?;
    for id in ids {
        let number = id.0;
        write!(printed, " {number}")?;
    }
    printed.push_str(" ]")
}

fn append_number(number: Option<u32>, printed: &mut String) -> Result<(), AllocError> {
    match number {
        Some(number) => write!(printed, " {number}"),
        None => printed.push_str(" -"),
    }
}

// A scope's flags, its parent and its names.
fn append_scope(scoping: &Scoping, scope: ScopeId, printed: &mut String) -> Result<(), AllocError>
    requires { scope.0 < length scoping.now.scopes }
{
    let flags = scoping.scope_flags(scope).bits();
    write!(printed, " ({flags}")?;
    match scoping.scope_parent_id(scope) {
        Some(parent) => append_number(Some(parent.0), printed)?,
        None => append_number(None, printed)?,
    }
    for (name, symbol) in scoping.get_bindings(scope) {
        let number = symbol.0;
        write!(printed, " {name} {number}")?;
    }
    printed.push_str(")")
}

fn append_scopes(scoping: &Scoping, printed: &mut String) -> Result<(), AllocError> {
    for number in 0..1000 {
        if number as usize >= scoping.scopes_len() {
            return Ok(());
        }
        append_scope(scoping, ScopeId(number), printed)?;
    }
    Ok(())
}

// A symbol's name, flags, scope and references.
fn append_symbol(
    scoping: &Scoping,
    symbol: SymbolId,
    printed: &mut String,
) -> Result<(), AllocError>
    requires { symbol.0 < length scoping.now.symbols }
{
    let name = scoping.symbol_name(symbol);
    let flags = scoping.symbol_flags(symbol).bits();
    let scope = scoping.symbol_scope_id(symbol).0;
    write!(printed, " ({name} {flags} {scope}")?;
    append_references(scoping.get_resolved_reference_ids(symbol), printed)?;
    printed.push_str(")")
}

fn append_symbols(scoping: &Scoping, printed: &mut String) -> Result<(), AllocError> {
    for i in 0..scoping.symbols_len() {
        append_symbol(scoping, SymbolId(i as u32), printed)?;
    }
    Ok(())
}

// A reference's scope, symbol and flags.
fn append_reference(
    scoping: &Scoping,
    reference: ReferenceId,
    printed: &mut String,
) -> Result<(), AllocError>
    requires { reference.0 < length scoping.now.references }
{
    let reference = scoping.get_reference(reference);
    let scope = reference.scope_id().0;
    write!(printed, " ({scope}")?;
    match reference.symbol_id() {
        Some(symbol) => append_number(Some(symbol.0), printed)?,
        None => append_number(None, printed)?,
    }
    let flags = reference.flags().bits();
    write!(printed, " {flags})")
}

fn append_all_references(scoping: &Scoping, printed: &mut String) -> Result<(), AllocError> {
    for i in 0..scoping.references_len() {
        append_reference(scoping, ReferenceId(i as u32), printed)?;
    }
    Ok(())
}

fn append_names(scoping: &Scoping, printed: &mut String) -> Result<(), AllocError> {
    for item in scoping.root_unresolved_references() {
        let name = item.name();
        write!(printed, " ({name}")?;
        append_references(item.references(), printed)?;
        printed.push_str(")")?;
    }
    Ok(())
}

pub(crate) fn append_table(
    scoping: &Scoping,
    call: &str,
    printed: &mut String,
) -> Result<(), AllocError> {
    match call {
        "scopes" => append_scopes(scoping, printed),
        "symbols" => append_symbols(scoping, printed),
        "references" => append_all_references(scoping, printed),
        "names" => append_names(scoping, printed),
        _ => printed.push_str(" not a call"),
    }
}
