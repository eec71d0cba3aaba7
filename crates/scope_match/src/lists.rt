// Lists of an entry, beside those that are wanted there.
ghost use Rattle.std.specs.Prelude.{◌≡◌, ◌↔◌, map, Decides, IfOk, IsTrue};
ghost use Rattle.scope_rules.specs.Table.{Redeclaration};
ghost use Rattle.scope_table.specs.Named.{named};
ghost use Rattle.scope_match.specs.Items.{SameItems};
ghost use Rattle.scope_match.specs.Matches.{mark_at, marks_at, named_by};
ghost use Rattle.scope_match.specs.Keys.{named_key};

use crate::items::same_items;
use crate::marks::mark_at;
use indexmap::IndexMap;
use js_syntax::{ReferenceId, SymbolId};
use scope_table::Redeclaration;
use std::alloc::{AllocError, Global};

// ---- references

fn ids_of(alloc: Global, references: &[ReferenceId]) -> Result<Vec<u32>, AllocError>
    ensures { IfOk result (λ v. v.items ≡ map (λ r. r.0) references.now) }
{
    let mut ids = Vec::new(alloc);
    for reference in references {
        ids.push(reference.0)?;
    }
    Ok(ids)
}

fn marks_of(
    alloc: Global,
    references: &[ReferenceId],
    marks: &[u32],
) -> Result<Vec<u32>, AllocError>
    ensures { IfOk result (λ v. v.items ≡ marks_at marks.now (map (λ r. r.0) references.now)) }
{
    let mut ids = Vec::new(alloc);
    for reference in references {
        ids.push(mark_at(marks, reference.0))?;
    }
    Ok(ids)
}

/// Whether the references are the marks of those that are wanted.
pub(crate) fn same_references(
    alloc: Global,
    given: &[ReferenceId],
    wanted: &[ReferenceId],
    marks: &[u32],
) -> Result<bool, AllocError>
    ensures { IfOk result (λ b. IsTrue b ↔ SameItems (map (λ r. r.0) given.now) (marks_at marks.now (map (λ r. r.0) wanted.now))) }
{
    let given = ids_of(alloc, given)?;
    let wanted = marks_of(alloc, wanted, marks)?;
    let same = same_items(alloc, &given, &wanted)?;
    Ok(same)
}

// ---- names

fn names_of<'a>(
    alloc: Global,
    bindings: &'a IndexMap<String, SymbolId>,
) -> Result<Vec<(u32, &'a str)>, AllocError>
    ensures { IfOk result (λ v. map named_key v.items ≡ map named bindings.now.entries) }
{
    let mut names = Vec::new(alloc);
    for (name, symbol) in bindings {
        names.push((symbol.0, name.as_str()))?;
    }
    Ok(names)
}

fn marks_of_names<'a>(
    alloc: Global,
    bindings: &'a IndexMap<String, SymbolId>,
    marks: &[u32],
) -> Result<Vec<(u32, &'a str)>, AllocError>
    ensures { IfOk result (λ v. map named_key v.items ≡ map (named_by marks.now) (map named bindings.now.entries)) }
{
    let mut names = Vec::new(alloc);
    for (name, symbol) in bindings {
        names.push((mark_at(marks, symbol.0), name.as_str()))?;
    }
    Ok(names)
}

/// Whether the names are those that are wanted, with the marks of their symbols.
pub(crate) fn same_names(
    alloc: Global,
    given: &IndexMap<String, SymbolId>,
    wanted: &IndexMap<String, SymbolId>,
    marks: &[u32],
) -> Result<bool, AllocError>
    ensures { IfOk result (λ b. IsTrue b ↔ SameItems (map named given.now.entries) (map (named_by marks.now) (map named wanted.now.entries))) }
{
    let given = names_of(alloc, given)?;
    let wanted = marks_of_names(alloc, wanted, marks)?;
    let same = same_items(alloc, &given, &wanted)?;
    Ok(same)
}

// ---- declarations

fn same_declaration(given: &Redeclaration, wanted: &Redeclaration) -> bool
    ensures { Decides result (given.now ≡ wanted.now) }
{
    given.span() == wanted.span()
        && given.flags() == wanted.flags()
        && given.is_pure() == wanted.is_pure()
}

/// Whether the declarations are those that are wanted, in order.
pub(crate) fn same_declarations(given: &[Redeclaration], wanted: &[Redeclaration]) -> bool
    ensures { Decides result (given.now ≡ wanted.now) }
{
    if given.len() != wanted.len() {
        return false;
    }
    for i in 0..given.len() {
        if !same_declaration(&given[i], &wanted[i]) {
            return false;
        }
    }
    true
}
