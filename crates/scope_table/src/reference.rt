// References, with their symbols.
ghost use Rattle.std.specs.Prelude.{◌≡◌, map, option_map, IfOk};
ghost use Rattle.scope_rules.specs.Table.{reference_at, unless_bound, unbound_name};
ghost use Rattle.scope_table.specs.Reading.{is_write};
ghost use Rattle.scope_table.specs.Unbound.{name_told};

use crate::ReferenceFlags;
use bitflags::Flags;
use js_syntax::{ScopeId, SymbolId};
use scope_context::ReferenceSite;
use scope_names::Declared;
use std::alloc::{AllocError, Global};
use std::marker::Model;

/// A reference.
#[derive(Drop)]
pub struct Reference {
    scope: u32,
    symbol: Option<u32>,
    flags: u8,
}

impl Model for Reference {
    ghost use Rattle.scope_rules.specs.Table.{Reference};

    ghost Value = { Reference };

    ghost view = { λ r. record { scope = r.scope; symbol = r.symbol; flags = r.flags } };
}

impl Reference {
    pub fn scope_id(&self) -> ScopeId
        ensures scope { result.0 ≡ self.now.scope }
    {
        ScopeId(self.scope)
    }

    /// The symbol that it means. Without one it means a name that nothing declares.
    pub fn symbol_id(&self) -> Option<SymbolId>
        ensures symbol { option_map (λ s. s.0) result ≡ self.now.symbol }
    {
        match self.symbol {
            Some(symbol) => Some(SymbolId(symbol)),
            None => None,
        }
    }

    pub fn flags(&self) -> ReferenceFlags
        ensures flags { result.0 ≡ self.now.flags }
    {
        ReferenceFlags::from_bits_retain(self.flags)
    }

    pub(crate) fn is_write(&self) -> bool
        ensures { result ≡ is_write self.now }
    {
        self.flags().contains(ReferenceFlags::Write)
    }

    pub(crate) fn symbol(&self) -> Option<u32>
        ensures { result ≡ self.now.symbol }
    {
        self.symbol
    }

    pub(crate) fn new(scope: u32, symbol: Option<u32>, flags: ReferenceFlags) -> Reference
        ensures { result ≡ record { scope = scope; symbol = symbol; flags = flags.0 } }
    {
        Reference {
            scope,
            symbol,
            flags: flags.bits(),
        }
    }

    fn of<'a>(names: &Declared<'_, 'a>, site: &ReferenceSite<'a>) -> Reference
        ensures { result ≡ reference_at names.now site.now }
    {
        Reference {
            scope: site.scope(),
            symbol: names.symbol_used(site),
            flags: site.flags(),
        }
    }
}

// The name of a reference, where it has no symbol.
fn unless_bound(symbol: Option<u32>, name: &str) -> Option<&str>
    ensures { name_told result ≡ unless_bound symbol name.now }
{
    match symbol {
        Some(_) => None,
        None => Some(name),
    }
}

// The references, and for each its name where it has no symbol.
pub(crate) fn references_of<'a>(
    alloc: Global,
    names: &Declared<'_, 'a>,
    sites: &[ReferenceSite<'a>],
) -> Result<(Vec<Reference>, Vec<Option<&'a str>>), AllocError>
    ensures references { IfOk result (λ r. r.0.items ≡ map (reference_at names.now) sites.now) }
    ensures unbound { IfOk result (λ r. map name_told r.1.items ≡ map (unbound_name names.now) sites.now) }
{
    let mut references = Vec::new(alloc);
    let mut unbound = Vec::new(alloc);
    for site in sites {
        let reference = Reference::of(names, site);
        unbound.push(unless_bound(reference.symbol(), site.name()))?;
        references.push(reference)?;
    }
    Ok((references, unbound))
}
