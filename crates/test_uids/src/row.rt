// A row: the names of a scoping, those that are taken besides, and those that are asked for.
use fresh_names::UidGenerator;
use js_syntax::{ReferenceId, ScopeId};
use scope_context::Found;
use scope_table::{Scoping, SymbolFlags, table};
use std::alloc::{AllocError, Global};

// No row has more symbols.
const MOST: usize = 1000;

// The four parts of a row.
#[derive(Clone, Copy)]
struct Parts<'a> {
    symbols: &'a str,
    unresolved: &'a str,
    told: &'a str,
    asked: &'a str,
}

impl<'a> Parts<'a> {
    fn of(row: &'a str) -> Option<Parts<'a>> {
        let (symbols, rest) = row.split_once('|')?;
        let (unresolved, rest) = rest.split_once('|')?;
        let (told, asked) = rest.split_once('|')?;
        Some(Parts {
            symbols,
            unresolved,
            told,
            asked,
        })
    }
}

fn add_symbols(scoping: &mut Scoping, names: &str) -> Result<(), AllocError> {
    for name in names.split_whitespace() {
        if scoping.symbols_len() < MOST {
            scoping.create_symbol(name, SymbolFlags::Function, ScopeId(0))?;
        }
    }
    Ok(())
}

fn add_unresolved(scoping: &mut Scoping, names: &str) -> Result<(), AllocError> {
    for name in names.split_whitespace() {
        scoping.add_root_unresolved_reference(name, ReferenceId(0))?;
    }
    Ok(())
}

// A scoping that has these names.
fn scoping_with(alloc: Global, parts: &Parts) -> Result<Scoping, AllocError> {
    let mut scoping = table(alloc, &Found::new(alloc))?.scoping;
    add_symbols(&mut scoping, parts.symbols)?;
    add_unresolved(&mut scoping, parts.unresolved)?;
    Ok(scoping)
}

fn append_fresh(
    uids: &mut UidGenerator,
    asked: &str,
    printed: &mut String,
) -> Result<(), AllocError> {
    for name in asked.split_whitespace() {
        let fresh = uids.create(name)?;
        printed.push_str(" ")?;
        printed.push_str(fresh.as_str())?;
    }
    Ok(())
}

fn append_to(
    uids: &mut UidGenerator,
    parts: &Parts,
    printed: &mut String,
) -> Result<(), AllocError> {
    for name in parts.told.split_whitespace() {
        uids.add(name)?;
    }
    append_fresh(uids, parts.asked, printed)
}

/// A row, with the answers behind it.
pub(crate) fn append_answers(
    alloc: Global,
    row: &str,
    printed: &mut String,
) -> Result<(), AllocError> {
    printed.push_str(row)?;
    printed.push_str(":")?;
    let Some(parts) = Parts::of(row) else {
        return printed.push_str(" no row");
    };
    let scoping = scoping_with(alloc, &parts)?;
    let mut uids = UidGenerator::new(alloc, &scoping)?;
    append_to(&mut uids, &parts, printed)
}
