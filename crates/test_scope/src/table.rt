// The table of a program, by its reading calls.
ghost use Rattle.std.specs.Prelude.{◌<◌, length};

use crate::answer::{MOST, append_number};
use crate::marks::append_marks;
use bitflags::Flags;
use js_scoping::{Redeclaration, Reference, Scoping, Unresolved, build, scoping_matches};
use js_syntax::{ReferenceId, ScopeId, SymbolId};
use js_tree::{Program, count_nodes};
use std::alloc::{AllocError, Global};

fn append_references(ids: &[ReferenceId], printed: &mut String) -> Result<(), AllocError> {
    for id in ids {
        let number = id.0;
        write!(printed, " {number}")?;
    }
    Ok(())
}

fn append_symbol(symbol: Option<SymbolId>, printed: &mut String) -> Result<(), AllocError> {
    match symbol {
        Some(symbol) => append_number(Some(symbol.0), printed),
        None => append_number(None, printed),
    }
}

// ---- scopes

// A scope, the one around it, and so on.
fn append_ancestors(
    alloc: Global,
    scoping: &Scoping,
    scope: ScopeId,
    printed: &mut String,
) -> Result<(), AllocError>
    requires { scope.0 < length scoping.now.scopes }
{
    write!(printed, ", within")?;
    for ancestor in scoping.scope_ancestors(alloc, scope)? {
        let number = ancestor.0;
        write!(printed, " {number}")?;
    }
    match scoping.scope_parent_id(scope) {
        Some(parent) => {
            let number = parent.0;
            write!(printed, ", parent {number}")
        }
        None => Ok(()),
    }
}

fn append_names(scoping: &Scoping, scope: ScopeId, printed: &mut String) -> Result<(), AllocError>
    requires { scope.0 < length scoping.now.scopes }
{
    write!(printed, ", names")?;
    for (name, symbol) in scoping.get_bindings(scope) {
        let number = symbol.0;
        write!(printed, " {name} {number}")?;
    }
    Ok(())
}

// Which symbol the name of each symbol means in a scope.
fn append_meanings(
    scoping: &Scoping,
    scope: ScopeId,
    printed: &mut String,
) -> Result<(), AllocError>
    requires { scope.0 < length scoping.now.scopes }
{
    write!(printed, ", finds")?;
    for i in 0..scoping.symbols_len() {
        let name = scoping.symbol_name(SymbolId(i as u32));
        append_symbol(scoping.find_binding(scope, name), printed)?;
    }
    writeln!(printed, "")
}

fn append_scope(
    alloc: Global,
    scoping: &Scoping,
    scope: ScopeId,
    printed: &mut String,
) -> Result<(), AllocError>
    requires { scope.0 < length scoping.now.scopes }
{
    let (number, flags) = (scope.0, scoping.scope_flags(scope).bits());
    write!(printed, "scope {number}: flags {flags}")?;
    append_ancestors(alloc, scoping, scope, printed)?;
    append_names(scoping, scope, printed)?;
    append_meanings(scoping, scope, printed)
}

fn append_scopes(alloc: Global, scoping: &Scoping, printed: &mut String) -> Result<(), AllocError> {
    for number in 0..MOST {
        if number as usize >= scoping.scopes_len() {
            return Ok(());
        }
        append_scope(alloc, scoping, ScopeId(number), printed)?;
    }
    Ok(())
}

// ---- symbols

fn append_declarations(
    declarations: &[Redeclaration],
    printed: &mut String,
) -> Result<(), AllocError> {
    for declaration in declarations {
        let (flags, is_pure) = (declaration.flags().bits(), declaration.is_pure());
        let (start, end) = (declaration.span().start, declaration.span().end);
        write!(
            printed,
            ", declaration {flags} pure {is_pure} at {start} {end}"
        )?;
    }
    Ok(())
}

fn append_words(scoping: &Scoping, symbol: SymbolId, printed: &mut String) -> Result<(), AllocError>
    requires { symbol.0 < length scoping.now.symbols }
{
    let is_pure = scoping.symbol_has_no_side_effects(symbol);
    let is_unused = scoping.symbol_is_unused(symbol);
    let is_mutated = scoping.symbol_is_mutated(symbol);
    write!(
        printed,
        ", pure {is_pure}, unused {is_unused}, mutated {is_mutated}"
    )
}

fn append_uses(uses: &[&Reference], printed: &mut String) -> Result<(), AllocError> {
    for reference in uses {
        let flags = reference.flags().bits();
        write!(printed, " {flags}")?;
    }
    Ok(())
}

// The references to a symbol, and then their flags.
fn append_uses_of(
    alloc: Global,
    scoping: &Scoping,
    symbol: SymbolId,
    printed: &mut String,
) -> Result<(), AllocError>
    requires { symbol.0 < length scoping.now.symbols }
{
    write!(printed, ", references")?;
    append_references(scoping.get_resolved_reference_ids(symbol), printed)?;
    let uses = scoping.get_resolved_references(alloc, symbol)?;
    write!(printed, ", of flags")?;
    append_uses(uses.as_slice(), printed)?;
    writeln!(printed, "")
}

fn append_symbol_row(
    alloc: Global,
    scoping: &Scoping,
    symbol: SymbolId,
    printed: &mut String,
) -> Result<(), AllocError>
    requires { symbol.0 < length scoping.now.symbols }
{
    let (number, name) = (symbol.0, scoping.symbol_name(symbol));
    let (scope, flags) = (
        scoping.symbol_scope_id(symbol).0,
        scoping.symbol_flags(symbol).bits(),
    );
    write!(
        printed,
        "symbol {number} {name}: scope {scope}, flags {flags}"
    )?;
    append_declarations(scoping.symbol_redeclarations(symbol), printed)?;
    append_words(scoping, symbol, printed)?;
    append_uses_of(alloc, scoping, symbol, printed)
}

fn append_symbols(
    alloc: Global,
    scoping: &Scoping,
    printed: &mut String,
) -> Result<(), AllocError> {
    for i in 0..scoping.symbols_len() {
        append_symbol_row(alloc, scoping, SymbolId(i as u32), printed)?;
    }
    Ok(())
}

// ---- references

fn append_reference(
    number: u32,
    reference: &Reference,
    printed: &mut String,
) -> Result<(), AllocError> {
    let (scope, flags) = (reference.scope_id().0, reference.flags().bits());
    write!(
        printed,
        "reference {number}: scope {scope}, flags {flags}, symbol"
    )?;
    append_symbol(reference.symbol_id(), printed)?;
    writeln!(printed, "")
}

fn append_all_references(scoping: &Scoping, printed: &mut String) -> Result<(), AllocError> {
    for i in 0..scoping.references_len() {
        let number = i as u32;
        append_reference(number, scoping.get_reference(ReferenceId(number)), printed)?;
    }
    Ok(())
}

fn append_unresolved(names: &[Unresolved], printed: &mut String) -> Result<(), AllocError> {
    for name in names {
        let text = name.name();
        write!(printed, "unresolved {text}:")?;
        append_references(name.references(), printed)?;
        writeln!(printed, "")?;
    }
    Ok(())
}

// ---- of all together

fn append_symbol_names(
    alloc: Global,
    scoping: &Scoping,
    printed: &mut String,
) -> Result<(), AllocError> {
    write!(printed, "names")?;
    for name in scoping.symbol_names(alloc)? {
        write!(printed, " {name}")?;
    }
    Ok(())
}

fn append_pure_symbols(
    alloc: Global,
    scoping: &Scoping,
    printed: &mut String,
) -> Result<(), AllocError> {
    write!(printed, ", pure")?;
    for symbol in scoping.no_side_effects(alloc)? {
        let number = symbol.0;
        write!(printed, " {number}")?;
    }
    Ok(())
}

fn append_root(scoping: &Scoping, printed: &mut String) -> Result<(), AllocError> {
    if scoping.scopes_len() == 0 {
        return writeln!(printed, ", no scopes");
    }
    let (scope, flags) = (scoping.root_scope_id().0, scoping.root_scope_flags().bits());
    let resolved = scoping.resolved_count();
    writeln!(
        printed,
        ", resolved {resolved}, root {scope} of flags {flags}"
    )
}

fn append_totals(alloc: Global, scoping: &Scoping, printed: &mut String) -> Result<(), AllocError> {
    append_symbol_names(alloc, scoping, printed)?;
    append_pure_symbols(alloc, scoping, printed)?;
    append_root(scoping, printed)
}

fn append_scoping(
    alloc: Global,
    scoping: &Scoping,
    printed: &mut String,
) -> Result<(), AllocError> {
    append_scopes(alloc, scoping, printed)?;
    append_symbols(alloc, scoping, printed)?;
    append_all_references(scoping, printed)?;
    append_unresolved(scoping.root_unresolved_references(), printed)?;
    append_totals(alloc, scoping, printed)
}

/// Whether a table matches a program.
pub(crate) fn append_match(
    alloc: Global,
    scoping: &Scoping,
    program: &Program,
    printed: &mut String,
) -> Result<(), AllocError> {
    if count_nodes(program, MOST) > MOST as usize {
        return writeln!(printed, "too large");
    }
    let matches = scoping_matches(alloc, scoping, program)?;
    writeln!(printed, "matches {matches}")
}

fn append_built(
    alloc: Global,
    scoping: &Scoping,
    program: &Program,
    printed: &mut String,
) -> Result<(), AllocError> {
    append_scoping(alloc, scoping, printed)?;
    append_marks(program, printed)?;
    append_match(alloc, scoping, program, printed)
}

/// The table of a program, the marks that its nodes have then, and whether they match.
pub(crate) fn append_table(
    alloc: Global,
    program: &mut Program,
    printed: &mut String,
) -> Result<(), AllocError> {
    if count_nodes(program, MOST) > MOST as usize {
        return writeln!(printed, "too large");
    }
    let scoping = build(alloc, program)?;
    append_built(alloc, &scoping, program, printed)
}
