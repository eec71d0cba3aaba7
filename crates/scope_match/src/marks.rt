// What the nodes of a program are marked with.
ghost use Rattle.std.specs.Prelude.{◌≡◌, ◌↔◌, ◌<◌, ◌^◌, map, length, Some, option_map, IfOk, IsTrue};
ghost use Rattle.scope_rules.specs.Table.{scoping_of, symbol_declared, symbols_declared, number_or_none};
ghost use Rattle.scope_laws.specs.Exact.{NoneTwice};
ghost use Rattle.scope_match.specs.Matches.{mark_at, AreMarked};
ghost use Rattle.scope_match.specs.Parts.{HaveMarks, AreApart};
ghost use Rattle.scope_match.specs.Candidates.{first_marks_from, candidates};

use crate::items::are_distinct;
use scope_context::{BindingSite, Found, ReferenceSite, ScopeSite};
use std::alloc::{AllocError, Global};
use std::marker::Model;

pub(crate) struct Marks {
    scopes: Vec<u32>,
    symbols: Vec<u32>,
    references: Vec<u32>,
}

impl Drop for Marks {
    fn drop(self) {
        let Marks {
            scopes: _,
            symbols: _,
            references: _,
        } = self;
    }
}

impl Model for Marks {
    ghost use Rattle.scope_match.specs.Matches.{Marks};

    ghost Value = { Marks };

    ghost view = { λ m. record { scopes = m.scopes.items; symbols = m.symbols.items; references = m.references.items } };
}

pub(crate) fn mark_at(marks: &[u32], number: u32) -> u32
    ensures { result ≡ mark_at marks.now number }
{
    let at = number as usize;
    if at < marks.len() { marks[at] } else { number }
}

pub(crate) fn mark_if_some(marks: &[u32], number: Option<u32>) -> Option<u32>
    ensures { result ≡ option_map (mark_at marks.now) number }
{
    match number {
        Some(number) => Some(mark_at(marks, number)),
        None => None,
    }
}

impl Marks {
    pub(crate) fn scopes(&self) -> &[u32]
        ensures { result.now ≡ self.now.scopes }
    {
        self.scopes.as_slice()
    }

    pub(crate) fn symbols(&self) -> &[u32]
        ensures { result.now ≡ self.now.symbols }
    {
        self.symbols.as_slice()
    }

    pub(crate) fn references(&self) -> &[u32]
        ensures { result.now ≡ self.now.references }
    {
        self.references.as_slice()
    }
}

fn number_or_none(number: Option<u32>) -> u32
    ensures { result ≡ number_or_none number }
{
    match number {
        Some(number) => number,
        None => 0,
    }
}

fn marks_of_scopes(alloc: Global, sites: &[ScopeSite]) -> Result<Vec<u32>, AllocError>
    ensures { IfOk result (λ v. v.items ≡ map (λ s. number_or_none s.id) sites.now) }
{
    let mut marks = Vec::new(alloc);
    for site in sites {
        marks.push(number_or_none(site.id()))?;
    }
    Ok(marks)
}

fn marks_of_references(alloc: Global, sites: &[ReferenceSite]) -> Result<Vec<u32>, AllocError>
    ensures { IfOk result (λ v. v.items ≡ map (λ r. number_or_none r.id) sites.now) }
{
    let mut marks = Vec::new(alloc);
    for site in sites {
        marks.push(number_or_none(site.id()))?;
    }
    Ok(marks)
}

// A symbol has the mark of its first declaration: symbols are numbered in order of first declarations.
fn marks_of_symbols(
    alloc: Global,
    sites: &[BindingSite],
    symbols: &[u32],
) -> Result<Vec<u32>, AllocError>
    requires { symbols.now ≡ symbols_declared sites.now }
    ensures { IfOk result (λ v. v.items ≡ first_marks_from 0 symbols.now sites.now) }
{
    let mut marks = Vec::new(alloc);
    for (i, site) in sites.iter().enumerate() {
        if i < symbols.len() && symbols[i] as usize == marks.len() {
            marks.push(number_or_none(site.id()))?;
        }
    }
    Ok(marks)
}

/// The marks that there are, if there are any that fit.
pub(crate) fn marks_of(alloc: Global, found: &Found, symbols: &[u32]) -> Result<Marks, AllocError>
    requires { symbols.now ≡ symbols_declared found.now.bindings }
    ensures { IfOk result (λ m. m ≡ candidates found.now) }
{
    Ok(Marks {
        scopes: marks_of_scopes(alloc, found.scopes())?,
        symbols: marks_of_symbols(alloc, found.bindings(), symbols)?,
        references: marks_of_references(alloc, found.references())?,
    })
}

fn scopes_have_marks(sites: &[ScopeSite]) -> bool
    ensures { IsTrue result ↔ (map (λ s. s.id) sites.now ≡ map (λ s. Some (number_or_none s.id)) sites.now) }
{
    for site in sites {
        if site.id().is_none() {
            return false;
        }
    }
    true
}

fn references_have_marks(sites: &[ReferenceSite]) -> bool
    ensures { IsTrue result ↔ (map (λ r. r.id) sites.now ≡ map (λ r. Some (number_or_none r.id)) sites.now) }
{
    for site in sites {
        if site.id().is_none() {
            return false;
        }
    }
    true
}

fn declarations_have_marks(sites: &[BindingSite], symbols: &[u32], marks: &[u32]) -> bool
    requires { symbols.now ≡ symbols_declared sites.now }
    ensures { IsTrue result ↔ (map (λ b. b.id) sites.now ≡ map (λ b. Some (mark_at marks.now (number_or_none (symbol_declared sites.now b)))) sites.now) }
{
    for (i, site) in sites.iter().enumerate() {
        if i < symbols.len() && site.id() != Some(mark_at(marks, symbols[i])) {
            return false;
        }
    }
    true
}

fn have_marks(found: &Found, symbols: &[u32], marks: &Marks, count: usize) -> bool
    requires { symbols.now ≡ symbols_declared found.now.bindings }
    ensures { IsTrue result ↔ HaveMarks found.now marks.now count }
{
    if !scopes_have_marks(found.scopes()) {
        return false;
    }
    if !references_have_marks(found.references()) {
        return false;
    }
    if !declarations_have_marks(found.bindings(), symbols, marks.symbols()) {
        return false;
    }
    marks.symbols().len() == count
}

fn none_twice(alloc: Global, marks: &[u32]) -> Result<bool, AllocError>
    ensures { IfOk result (λ b. IsTrue b ↔ NoneTwice marks.now) }
{
    let distinct = are_distinct(alloc, marks)?;
    Ok(distinct)
}

fn are_apart(alloc: Global, marks: &Marks) -> Result<bool, AllocError>
    ensures { IfOk result (λ b. IsTrue b ↔ AreApart marks.now) }
{
    let scopes = none_twice(alloc, marks.scopes())?;
    let symbols = none_twice(alloc, marks.symbols())?;
    let references = none_twice(alloc, marks.references())?;
    Ok(scopes && symbols && references)
}

/// Whether these marks are those of what was found, whose table has that many symbols.
pub(crate) fn are_marked(
    alloc: Global,
    found: &Found,
    symbols: &[u32],
    marks: &Marks,
    count: usize,
) -> Result<bool, AllocError>
    requires marks { marks.now ≡ candidates found.now }
    requires symbols { symbols.now ≡ symbols_declared found.now.bindings }
    requires count { count ≡ length (scoping_of found.now).symbols }
    ensures { IfOk result (λ b. IsTrue b ↔ AreMarked found.now marks.now) }
{
    if !have_marks(found, symbols, marks, count) {
        return Ok(false);
    }
    let apart = are_apart(alloc, marks)?;
    Ok(apart)
}
