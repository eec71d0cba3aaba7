// Edits of a table.
ghost use Rattle.std.specs.Prelude.{◌≡◌, ◌<◌, length, not, IfOk};
ghost use Rattle.std.specs.List.{list_any};
ghost use Rattle.std.specs.Prelude.{nat_eq};
ghost use Rattle.scope_table.specs.Reading.{ancestors};

use bitflags::Flags;
use js_scoping::{ReferenceFlags, ScopeFlags, Scoping, SymbolFlags};
use js_syntax::{ReferenceId, ScopeId, SymbolId};
use std::alloc::{AllocError, Global};
use symbol_sets::{SymbolSet, VecSet};

// What a call takes: up to three parts.
#[derive(Clone, Copy)]
struct Taken<'a> {
    first: &'a str,
    second: &'a str,
    third: &'a str,
}

fn parts_of<'a>(text: &'a str) -> Taken<'a> {
    let (first, rest) = match text.split_once(',') {
        Some((first, rest)) => (first, rest),
        None => (text, ""),
    };
    let (second, third) = match rest.split_once(',') {
        Some((second, third)) => (second, third),
        None => (rest, ""),
    };
    Taken {
        first,
        second,
        third,
    }
}

// A number, of which all have one in the rows.
fn number(text: &str) -> u32 {
    match text.parse::<u32>() {
        Ok(n) => n,
        Err(_) => 0,
    }
}

fn bits(text: &str) -> u8 {
    match text.parse::<u8>() {
        Ok(n) => n,
        Err(_) => 0,
    }
}

fn scope_flags(text: &str) -> ScopeFlags {
    match text.parse::<u16>() {
        Ok(n) => ScopeFlags::from_bits_retain(n),
        Err(_) => ScopeFlags::from_bits_retain(0),
    }
}

fn append_id(id: u32, printed: &mut String) -> Result<(), AllocError> {
    write!(printed, " {id}")
}

fn append_no(printed: &mut String) -> Result<(), AllocError> {
    printed.push_str(" no")
}

// ---- scopes

fn append_scope(
    scoping: &mut Scoping,
    parent: &str,
    flags: ScopeFlags,
    printed: &mut String,
) -> Result<(), AllocError> {
    let count = scoping.scopes_len();
    if count >= 1000 {
        return append_no(printed);
    }
    if parent == "-" {
        let id = scoping.add_scope(None, flags)?;
        return append_id(id.0, printed);
    }
    let parent = ScopeId(number(parent));
    if parent.0 as usize >= count {
        return append_no(printed);
    }
    let id = scoping.add_scope(Some(parent), flags)?;
    append_id(id.0, printed)
}

// Whether a scope is neither another nor around it.
fn is_outside(
    alloc: Global,
    scoping: &Scoping,
    scope: ScopeId,
    other: ScopeId,
) -> Result<bool, AllocError>
    requires { other.0 < length scoping.now.scopes }
    ensures { IfOk result (λ b. not b ≡ list_any (nat_eq scope.0) (ancestors scoping.now other.0)) }
{
    let above = scoping.scope_ancestors(alloc, other)?;
    for ancestor in &above {
        if scope.0 == ancestor.0 {
            return Ok(false);
        }
    }
    Ok(true)
}

fn append_parent(
    alloc: Global,
    scoping: &mut Scoping,
    scope: ScopeId,
    parent: &str,
    printed: &mut String,
) -> Result<(), AllocError> {
    let count = scoping.scopes_len();
    if scope.0 as usize >= count {
        return append_no(printed);
    }
    if parent == "-" {
        scoping.set_scope_parent_id(scope, None);
        return Ok(());
    }
    let parent = ScopeId(number(parent));
    if parent.0 as usize >= count {
        return append_no(printed);
    }
    if !is_outside(alloc, scoping, scope, parent)? {
        return append_no(printed);
    }
    scoping.set_scope_parent_id(scope, Some(parent));
    Ok(())
}

fn append_flags(
    scoping: &mut Scoping,
    scope: ScopeId,
    flags: ScopeFlags,
    printed: &mut String,
) -> Result<(), AllocError> {
    if scope.0 as usize >= scoping.scopes_len() {
        return append_no(printed);
    }
    *scoping.scope_flags_mut(scope) = flags;
    Ok(())
}

fn append_binding(
    scoping: &mut Scoping,
    scope: ScopeId,
    name: &str,
    symbol: SymbolId,
    printed: &mut String,
) -> Result<(), AllocError> {
    if scope.0 as usize >= scoping.scopes_len() {
        return append_no(printed);
    }
    scoping.add_binding(scope, name, symbol)
}

// ---- symbols and references

fn append_symbol(
    scoping: &mut Scoping,
    taken: &Taken,
    printed: &mut String,
) -> Result<(), AllocError> {
    if scoping.symbols_len() >= 1000 {
        return append_no(printed);
    }
    let flags = SymbolFlags::from_bits_retain(bits(taken.second));
    let id = scoping.create_symbol(taken.first, flags, ScopeId(number(taken.third)))?;
    append_id(id.0, printed)
}

fn append_reference(
    scoping: &mut Scoping,
    taken: &Taken,
    printed: &mut String,
) -> Result<(), AllocError> {
    if scoping.references_len() >= 1000 {
        return append_no(printed);
    }
    let symbol = match taken.second {
        "-" => None,
        text => Some(SymbolId(number(text))),
    };
    let flags = ReferenceFlags::from_bits_retain(bits(taken.third));
    let id = scoping.create_reference(ScopeId(number(taken.first)), symbol, flags)?;
    append_id(id.0, printed)
}

fn append_listed(
    scoping: &mut Scoping,
    symbol: SymbolId,
    reference: ReferenceId,
    printed: &mut String,
) -> Result<(), AllocError> {
    if symbol.0 as usize >= scoping.symbols_len() {
        return append_no(printed);
    }
    scoping.add_resolved_reference(symbol, reference)
}

fn append_unlisted(
    scoping: &mut Scoping,
    symbol: SymbolId,
    reference: ReferenceId,
    printed: &mut String,
) -> Result<(), AllocError> {
    if symbol.0 as usize >= scoping.symbols_len() {
        return append_no(printed);
    }
    scoping.delete_resolved_reference(symbol, reference);
    Ok(())
}

fn exclude(alloc: Global, scoping: &mut Scoping, numbers: &str) -> Result<(), AllocError> {
    let mut excluded = VecSet::new(alloc, 100)?;
    for text in numbers.split(',') {
        excluded.set_bit(number(text));
    }
    scoping.retain_resolved_references_excluding(&excluded);
    Ok(())
}

// ---- together with what lists them

fn append_bound_symbol(
    scoping: &mut Scoping,
    taken: &Taken,
    printed: &mut String,
) -> Result<(), AllocError> {
    let scope = ScopeId(number(taken.third));
    if scoping.symbols_len() >= 1000 || scope.0 as usize >= scoping.scopes_len() {
        return append_no(printed);
    }
    let flags = SymbolFlags::from_bits_retain(bits(taken.second));
    let id = scoping.create_bound_symbol(taken.first, flags, scope)?;
    append_id(id.0, printed)
}

fn append_bound_reference(
    scoping: &mut Scoping,
    taken: &Taken,
    printed: &mut String,
) -> Result<(), AllocError> {
    let symbol = SymbolId(number(taken.second));
    if scoping.references_len() >= 1000 || symbol.0 as usize >= scoping.symbols_len() {
        return append_no(printed);
    }
    let flags = ReferenceFlags::from_bits_retain(bits(taken.third));
    let id = scoping.create_bound_reference(ScopeId(number(taken.first)), symbol, flags)?;
    append_id(id.0, printed)
}

fn append_unbound_reference(
    scoping: &mut Scoping,
    taken: &Taken,
    printed: &mut String,
) -> Result<(), AllocError> {
    if scoping.references_len() >= 1000 {
        return append_no(printed);
    }
    let flags = ReferenceFlags::from_bits_retain(bits(taken.third));
    let id = scoping.create_unbound_reference(ScopeId(number(taken.first)), taken.second, flags)?;
    append_id(id.0, printed)
}

// ---- all of them

fn append_scope_edit(
    alloc: Global,
    scoping: &mut Scoping,
    word: &str,
    taken: &Taken,
    printed: &mut String,
) -> Result<(), AllocError> {
    let scope = ScopeId(number(taken.first));
    match word {
        "scope" => append_scope(scoping, taken.first, scope_flags(taken.second), printed),
        "parent" => append_parent(alloc, scoping, scope, taken.second, printed),
        "flags" => append_flags(scoping, scope, scope_flags(taken.second), printed),
        "bind" => append_binding(
            scoping,
            scope,
            taken.second,
            SymbolId(number(taken.third)),
            printed,
        ),
        _ => printed.push_str(" not a call"),
    }
}

fn append_list_edit(
    scoping: &mut Scoping,
    word: &str,
    taken: &Taken,
    printed: &mut String,
) -> Result<bool, AllocError> {
    let symbol = SymbolId(number(taken.first));
    let reference = ReferenceId(number(taken.second));
    match word {
        "list" => append_listed(scoping, symbol, reference, printed)?,
        "unlist" => append_unlisted(scoping, symbol, reference, printed)?,
        "name" => scoping.add_root_unresolved_reference(taken.first, reference)?,
        "unname" => scoping.delete_root_unresolved_reference(taken.first, reference),
        _ => return Ok(false),
    }
    Ok(true)
}

pub(crate) fn append_edit(
    alloc: Global,
    scoping: &mut Scoping,
    word: &str,
    text: &str,
    printed: &mut String,
) -> Result<(), AllocError> {
    let taken = parts_of(text);
    if append_list_edit(scoping, word, &taken, printed)? {
        return Ok(());
    }
    match word {
        "symbol" => append_symbol(scoping, &taken, printed),
        "reference" => append_reference(scoping, &taken, printed),
        "bound_symbol" => append_bound_symbol(scoping, &taken, printed),
        "bound_reference" => append_bound_reference(scoping, &taken, printed),
        "unbound_reference" => append_unbound_reference(scoping, &taken, printed),
        "exclude" => exclude(alloc, scoping, text),
        _ => append_scope_edit(alloc, scoping, word, &taken, printed),
    }
}
