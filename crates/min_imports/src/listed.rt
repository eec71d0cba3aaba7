// What an export lists, and whether it lists the names of an import.
ghost use Rattle.std.specs.Prelude.{◌≡◌, ℕ, List, [], ◌∷◌, ◌||◌, ◌&&◌, not, map, OnOk, IfOk};
ghost use Rattle.std.specs.List.{list_all};
ghost use Rattle.std.specs.Option.{option_map};
ghost use Rattle.js_syntax.specs.Node.{row};
ghost use Rattle.scope_table.specs.Reading.{symbol_at};
ghost use Rattle.steps.specs.Allowed.PassedExports.{lists, may_pass};
ghost use Rattle.rules.specs.Imports.Passed as rules;
ghost use Rattle.rules.specs.Imports.Passed.{has_reference};
ghost use Rattle.min_imports.specs.Passing.{reference_text, reference_id, binding_text, binding_id, listed_below, listed_text, reference_below, listed_reference, bound_below, bound_text, symbol_below, bound_symbol, has_text, has_number, Told, text_is_listed, name_passes, fails};

use crate::names::is_name;
use crate::uses::Uses;
use js_effects::is_marked;
use js_syntax::{NodeKind, ReferenceId, SymbolId};
use js_tree::Node;
use scope_table::Scoping;
use std::alloc::{AllocError, Global};
use std::collections::BTreeSet;

// ---- names

fn reference_text(kind: &NodeKind) -> Option<&str>
    ensures { option_map (λ s. s.now) result ≡ reference_text kind.now }
{
    match kind {
        NodeKind::ReferenceName(text) => Some(text.as_str()),
        _ => None,
    }
}

fn binding_text(kind: &NodeKind) -> Option<&str>
    ensures { option_map (λ s. s.now) result ≡ binding_text kind.now }
{
    match kind {
        NodeKind::BindingName(text) => Some(text.as_str()),
        _ => None,
    }
}

pub(crate) fn listed_below(children: &[Option<Node>]) -> Option<&str>
    ensures { option_map (λ s. s.now) result ≡ listed_below (row children.now) }
{
    match children {
        [Some(name), ..] => reference_text(name.kind()),
        [None, ..] => None,
        [] => None,
    }
}

// The name to which a specifier of an export refers.
fn listed_text(item: &Option<Node>) -> Option<&str>
    ensures { option_map (λ s. s.now) result ≡ listed_text item.now }
{
    match item {
        Some(specifier) => listed_below(specifier.children()),
        None => None,
    }
}

fn reference_of(name: &Node) -> Option<u32>
    ensures { result ≡ reference_id name.now.kind name.now.note }
{
    match name.kind() {
        NodeKind::ReferenceName(_) => name.id(),
        _ => None,
    }
}

fn reference_below(children: &[Option<Node>]) -> Option<u32>
    ensures { result ≡ reference_below (row children.now) }
{
    match children {
        [Some(name), ..] => reference_of(name),
        [None, ..] => None,
        [] => None,
    }
}

fn listed_reference(item: &Option<Node>) -> Option<u32>
    ensures { result ≡ listed_reference item.now }
{
    match item {
        Some(specifier) => reference_below(specifier.children()),
        None => None,
    }
}

pub(crate) fn bound_below(children: &[Option<Node>]) -> Option<&str>
    ensures { option_map (λ s. s.now) result ≡ bound_below (row children.now) }
{
    match children {
        [Some(name), ..] => binding_text(name.kind()),
        [None, ..] => None,
        [] => None,
    }
}

/// The name that a specifier of an import binds.
pub(crate) fn bound_text(item: &Option<Node>) -> Option<&str>
    ensures { option_map (λ s. s.now) result ≡ bound_text item.now }
{
    match item {
        Some(specifier) => bound_below(specifier.children()),
        None => None,
    }
}

fn symbol_of(name: &Node) -> Option<u32>
    ensures { result ≡ binding_id name.now.kind name.now.note }
{
    match name.kind() {
        NodeKind::BindingName(_) => name.id(),
        _ => None,
    }
}

fn symbol_below(children: &[Option<Node>]) -> Option<u32>
    ensures { result ≡ symbol_below (row children.now) }
{
    match children {
        [Some(name), ..] => symbol_of(name),
        [None, ..] => None,
        [] => None,
    }
}

fn bound_symbol(item: &Option<Node>) -> Option<u32>
    ensures { result ≡ bound_symbol item.now }
{
    match item {
        Some(specifier) => symbol_below(specifier.children()),
        None => None,
    }
}

// ---- what is listed

/// What an export of names alone lists: its specifiers, the names to which they refer, and the references.
#[derive(Drop)]
pub(crate) struct Listed<'a> {
    pub(crate) specifiers: &'a [Option<Node>],
    pub(crate) texts: BTreeSet<&'a str>,
    pub(crate) references: BTreeSet<u32>,
}

fn add_text<'a>(texts: &mut BTreeSet<&'a str>, item: &'a Option<Node>) -> Result<(), AllocError>
    ensures { OnOk result ((x : List ℕ) → has_text texts.new x ≡ lists (row (item.now ∷ [])) x || has_text texts.old x) }
{
    match listed_text(item) {
        Some(text) => {
            texts.insert(text)?;
            Ok(())
        }
        None => Ok(()),
    }
}

fn add_reference(references: &mut BTreeSet<u32>, item: &Option<Node>) -> Result<(), AllocError>
    ensures { OnOk result ((id : ℕ) → has_number references.new id ≡ has_reference (row (item.now ∷ [])) id || has_number references.old id) }
{
    match listed_reference(item) {
        Some(id) => {
            references.insert(id)?;
            Ok(())
        }
        None => Ok(()),
    }
}

/// What the specifiers of an export list.
pub(crate) fn listed_by<'a>(
    alloc: Global,
    specifiers: &'a [Option<Node>],
) -> Result<Listed<'a>, AllocError>
    ensures told { IfOk result (λ l. Told l.texts l.references (row specifiers.now)) }
    ensures specifiers { IfOk result (λ l. l.specifiers.now ≡ specifiers.now) }
{
    let mut texts = BTreeSet::new(alloc);
    let mut references = BTreeSet::new(alloc);
    for item in specifiers {
        add_text(&mut texts, item)?;
        add_reference(&mut references, item)?;
    }
    Ok(Listed {
        specifiers,
        texts,
        references,
    })
}

// ---- whether the names of an import are listed, and nothing else refers to them

fn references_to(scoping: &Scoping, symbol: u32) -> &[ReferenceId]
    ensures { map (λ r. r.0) result.now ≡ (symbol_at scoping.now symbol).references }
{
    if (symbol as usize) < scoping.symbols_len() {
        scoping.get_resolved_reference_ids(SymbolId(symbol))
    } else {
        &[]
    }
}

fn is_listed(listed: &Listed, reference: ReferenceId) -> bool
    requires told { Told listed.now.texts listed.now.references (row listed.now.specifiers.now) }
    ensures { result ≡ has_reference (row listed.now.specifiers.now) reference.0 }
{
    listed.references.contains(&reference.0)
}

fn are_listed(listed: &Listed, references: &[ReferenceId]) -> bool
    requires told { Told listed.now.texts listed.now.references (row listed.now.specifiers.now) }
    ensures { result ≡ list_all (has_reference (row listed.now.specifiers.now)) (map (λ r. r.0) references.now) }
{
    let mut at = 0;
    while at < references.len() {
        if !is_listed(listed, references[at]) {
            return false;
        }
        at += 1;
    }
    true
}

fn is_passed_alone(uses: &Uses, listed: &Listed, symbol: Option<u32>) -> bool
    requires told { Told listed.now.texts listed.now.references (row listed.now.specifiers.now) }
    ensures { result ≡ rules.is_passed_alone uses.now (row listed.now.specifiers.now) symbol }
{
    match symbol {
        Some(number) => {
            !is_marked(uses.exported, symbol)
                && are_listed(listed, references_to(uses.scoping, number))
        }
        None => false,
    }
}

fn is_text_listed<'a>(listed: &Listed<'a>, item: &'a Option<Node>) -> bool
    requires told { Told listed.now.texts listed.now.references (row listed.now.specifiers.now) }
    ensures { result ≡ text_is_listed (row listed.now.specifiers.now) (bound_text item.now) }
{
    match bound_text(item) {
        Some(text) => listed.texts.contains(&text),
        None => false,
    }
}

fn name_passes<'a>(uses: &Uses, listed: &Listed<'a>, item: &'a Option<Node>) -> bool
    requires told { Told listed.now.texts listed.now.references (row listed.now.specifiers.now) }
    ensures { result ≡ name_passes uses.now (row listed.now.specifiers.now) item.now }
{
    is_name(item)
        && (is_text_listed(listed, item) && is_passed_alone(uses, listed, bound_symbol(item)))
}

fn all_pass<'a>(uses: &Uses, listed: &Listed<'a>, names: &'a [Option<Node>]) -> bool
    requires told { Told listed.now.texts listed.now.references (row listed.now.specifiers.now) }
    ensures { result ≡ not (fails uses.now (row listed.now.specifiers.now) (row names.now)) }
{
    for item in names {
        if !name_passes(uses, listed, item) {
            return false;
        }
    }
    true
}

/// Whether an import binds names, and an export lists each, to which nothing else refers.
pub(crate) fn names_pass<'a>(uses: &Uses, listed: &Listed<'a>, names: &'a [Option<Node>]) -> bool
    requires told { Told listed.now.texts listed.now.references (row listed.now.specifiers.now) }
    ensures { result ≡ (may_pass (row names.now) (row listed.now.specifiers.now) && rules.are_passed_alone uses.now (row listed.now.specifiers.now) (row names.now)) }
{
    match names {
        [_, ..] => all_pass(uses, listed, names),
        [] => false,
    }
}
