// Symbols, with their declarations and the references to them.
ghost use Rattle.std.specs.Prelude.{◌≡◌, ◌<◌, ◌^◌, [], map, length, nat_eq, IfOk, OnOk, OnErr};
ghost use Rattle.scope_rules.specs.Table.{redeclaration, symbols_of, if_several, is_pure_alone};
ghost use Rattle.scope_table.specs.Group.{at_number};
ghost use Rattle.scope_table.specs.Kept.{blank, undeclared, with_declaration, with_reference, kept_without, kept_from};
ghost use Rattle.symbol_sets.specs.Numbers.{has};

use crate::SymbolFlags;
use crate::reference::Reference;
use bitflags::Flags;
use js_syntax::{Ident, ReferenceId, ScopeId, Span};
use scope_context::BindingSite;
use scope_names::{Declared, First};
use std::alloc::{AllocError, Global};
use std::marker::Model;
use symbol_sets::SymbolSet;

/// One of the declarations of a symbol.
#[derive(Drop)]
pub struct Redeclaration {
    span: Span,
    flags: u8,
    is_pure: bool,
}

impl Model for Redeclaration {
    ghost use Rattle.scope_rules.specs.Table.{Redeclaration};

    ghost Value = { Redeclaration };

    ghost view = { λ d. record { span = d.span; flags = d.flags; is_pure = d.is_pure } };
}

impl Redeclaration {
    fn of(site: &BindingSite) -> Redeclaration
        ensures { result ≡ redeclaration site.now }
    {
        Redeclaration {
            span: site.span(),
            flags: site.flags(),
            is_pure: site.is_pure(),
        }
    }

    pub fn span(&self) -> Span
        ensures span { result ≡ self.now.span }
    {
        self.span
    }

    pub fn flags(&self) -> SymbolFlags
        ensures flags { result.0 ≡ self.now.flags }
    {
        SymbolFlags::from_bits_retain(self.flags)
    }

    /// Whether it is a function's that is marked to have no side effects.
    pub fn is_pure(&self) -> bool
        ensures is_pure { result ≡ self.now.is_pure }
    {
        self.is_pure
    }
}

/// A symbol. It keeps all its declarations, one or more.
pub struct Symbol {
    name: Ident,
    scope: u32,
    flags: u8,
    declarations: Vec<Redeclaration>,
    references: Vec<ReferenceId>,
}

impl Drop for Symbol {
    fn drop(self) {
        let Symbol {
            name: _,
            scope: _,
            flags: _,
            declarations: _,
            references: _,
        } = self;
    }
}

impl Model for Symbol {
    ghost use Rattle.std.specs.Prelude.{map};
    ghost use Rattle.scope_table.specs.Kept.{KeptSymbol};

    ghost Value = { KeptSymbol };

    ghost view = { λ s. record { name = s.name; scope = s.scope; flags = s.flags; declarations = s.declarations.items; references = map (λ r. r.0) s.references.items } };
}

impl Symbol {
    fn blank(alloc: Global, first: &First) -> Result<Symbol, AllocError>
        ensures { IfOk result (λ s. s ≡ blank first.now) }
    {
        let name = String::from_str(alloc, first.name())?;
        Ok(Symbol {
            name: Ident::new(name),
            scope: first.scope(),
            flags: 0,
            declarations: Vec::new(alloc),
            references: Vec::new(alloc),
        })
    }

    pub(crate) fn name(&self) -> &str
        ensures { result.now ≡ self.now.name }
    {
        self.name.as_str()
    }

    pub(crate) fn scope(&self) -> ScopeId
        ensures { result.0 ≡ self.now.scope }
    {
        ScopeId(self.scope)
    }

    pub(crate) fn flags(&self) -> SymbolFlags
        ensures { result.0 ≡ self.now.flags }
    {
        SymbolFlags::from_bits_retain(self.flags)
    }

    pub(crate) fn redeclarations(&self) -> &[Redeclaration]
        ensures { result.now ≡ if_several self.now.declarations }
    {
        match self.declarations.as_slice() {
            [] | [_] => &[],
            declarations => declarations,
        }
    }

    pub(crate) fn references(&self) -> &[ReferenceId]
        ensures { map (λ r. r.0) result.now ≡ self.now.references }
    {
        self.references.as_slice()
    }

    pub(crate) fn is_pure(&self) -> bool
        ensures { result ≡ is_pure_alone self.now.declarations }
    {
        match self.declarations.as_slice() {
            [only] => only.is_pure(),
            _ => false,
        }
    }

    pub(crate) fn undeclared(
        alloc: Global,
        name: &str,
        flags: SymbolFlags,
        scope: u32,
    ) -> Result<Symbol, AllocError>
        ensures { IfOk result (λ s. s ≡ undeclared name.now flags.0 scope) }
    {
        let name = String::from_str(alloc, name)?;
        Ok(Symbol {
            name: Ident::new(name),
            scope,
            flags: flags.bits(),
            declarations: Vec::new(alloc),
            references: Vec::new(alloc),
        })
    }

    fn declare(&mut self, site: &BindingSite) -> Result<(), AllocError>
        ensures { OnOk result (self.new ≡ with_declaration (redeclaration site.now) self.old) }
    {
        self.flags |= site.flags();
        self.declarations.push(Redeclaration::of(site))?;
        Ok(())
    }

    pub(crate) fn refer(&mut self, reference: u32) -> Result<(), AllocError>
        ensures listed { OnOk result (self.new ≡ with_reference reference self.old) }
        ensures unchanged { OnErr result (self.new ≡ self.old) }
    {
        self.references.push(ReferenceId(reference))?;
        Ok(())
    }

    pub(crate) fn unlist(&mut self, reference: ReferenceId)
        ensures { self.new ≡ kept_without (nat_eq reference.0) self.old }
    {
        self.references.retain(|listed| reference.0 != listed.0);
    }

    pub(crate) fn retain_excluding<S: SymbolSet>(&mut self, excluded: &S)
        ensures { self.new ≡ kept_without (has (S.held excluded.now)) self.old }
    {
        self.references
            .retain(|listed| !excluded.contains(listed.0));
    }
}

fn declare(
    symbols: &mut Vec<Symbol>,
    number: Option<u32>,
    site: &BindingSite,
) -> Result<(), AllocError>
    ensures { OnOk result (symbols.new.items ≡ at_number (with_declaration (redeclaration site.now)) number 0 symbols.old.items) }
{
    if let Some(number) = number {
        let at = number as usize;
        if at < symbols.len() {
            let symbol = &mut symbols[at];
            symbol.declare(site)?;
        }
    }
    Ok(())
}

fn refer(symbols: &mut Vec<Symbol>, number: Option<u32>, reference: u32) -> Result<(), AllocError>
    ensures { OnOk result (symbols.new.items ≡ at_number (with_reference reference) number 0 symbols.old.items) }
{
    if let Some(number) = number {
        let at = number as usize;
        if at < symbols.len() {
            let symbol = &mut symbols[at];
            symbol.refer(reference)?;
        }
    }
    Ok(())
}

fn blank_symbols(alloc: Global, firsts: &[First]) -> Result<Vec<Symbol>, AllocError>
    ensures { IfOk result (λ v. v.items ≡ map blank firsts.now) }
{
    let mut symbols = Vec::new(alloc);
    for first in firsts {
        symbols.push(Symbol::blank(alloc, first)?)?;
    }
    Ok(symbols)
}

// With their declarations alone.
fn declared_symbols(alloc: Global, names: &Declared) -> Result<Vec<Symbol>, AllocError>
    ensures { IfOk result (λ v. v.items ≡ kept_from names.now names.now [] 0 (symbols_of names.now)) }
{
    let sites = names.sites();
    let mut symbols = blank_symbols(alloc, names.symbols())?;
    for site in sites {
        declare(&mut symbols, names.symbol_declared(site), site)?;
    }
    Ok(symbols)
}

pub(crate) fn symbols_with(
    alloc: Global,
    names: &Declared,
    references: &[Reference],
) -> Result<Vec<Symbol>, AllocError>
    requires { length references.now < 2 ^ 32 }
    ensures { IfOk result (λ v. v.items ≡ kept_from names.now names.now (map (λ r. r.symbol) references.now) 0 (symbols_of names.now)) }
{
    let mut symbols = declared_symbols(alloc, names)?;
    for (i, reference) in references.iter().enumerate() {
        refer(&mut symbols, reference.symbol(), i as u32)?;
    }
    Ok(symbols)
}
