// Names that nothing declares, with the references that have them.
ghost use Rattle.std.specs.Prelude.{◌≡◌, ◌<◌, ◌≤◌, ◌^◌, ℕ, List, [], ◌∷◌, map, length, nat_eq, option_and_then, Some, IfOk, OnOk, OnErr, if◌then◌else◌};
ghost use Rattle.std.specs.Str.{bytes_eq};
ghost use Rattle.scope_rules.specs.Table.{names_behind, name_number, unresolved_among};
ghost use Rattle.scope_table.specs.Group.{at_number};
ghost use Rattle.scope_table.specs.Unbound.{name_told, number_of, blank_name, with_use, IsNumbered, IsCounted};
ghost use Rattle.scope_table.specs.Editing.{name_without};

use js_syntax::{Ident, ReferenceId};
use std::alloc::{AllocError, Global};
use std::collections::BTreeMap;
use std::marker::Model;

/// A name that nothing declares.
pub struct Unresolved {
    name: Ident,
    references: Vec<ReferenceId>,
}

impl Drop for Unresolved {
    fn drop(self) {
        let Unresolved {
            name: _,
            references: _,
        } = self;
    }
}

impl Model for Unresolved {
    ghost use Rattle.std.specs.Prelude.{map};
    ghost use Rattle.scope_rules.specs.Table.{Unresolved};

    ghost Value = { Unresolved };

    ghost view = { λ u. record { name = u.name; references = map (λ r. r.0) u.references.items } };
}

impl Unresolved {
    fn blank(alloc: Global, name: &str) -> Result<Unresolved, AllocError>
        ensures { IfOk result (λ u. u ≡ blank_name name.now) }
    {
        let name = String::from_str(alloc, name)?;
        Ok(Unresolved {
            name: Ident::new(name),
            references: Vec::new(alloc),
        })
    }

    pub fn name(&self) -> &str
        ensures name { result.now ≡ self.now.name }
    {
        self.name.as_str()
    }

    /// The references that have it, in order.
    pub fn references(&self) -> &[ReferenceId]
        ensures references { map (λ r. r.0) result.now ≡ self.now.references }
    {
        self.references.as_slice()
    }

    pub(crate) fn refer(&mut self, reference: u32) -> Result<(), AllocError>
        ensures listed { OnOk result (self.new ≡ with_use reference self.old) }
        ensures unchanged { OnErr result (self.new ≡ self.old) }
    {
        self.references.push(ReferenceId(reference))?;
        Ok(())
    }

    pub(crate) fn used_once(
        alloc: Global,
        name: &str,
        reference: u32,
    ) -> Result<Unresolved, AllocError>
        ensures { IfOk result (λ u. u ≡ record { name = name.now; references = reference ∷ [] }) }
    {
        let mut item = Unresolved::blank(alloc, name)?;
        item.refer(reference)?;
        Ok(item)
    }

    pub(crate) fn unlist(&mut self, reference: ReferenceId)
        ensures { self.new ≡ name_without (nat_eq reference.0) self.old }
    {
        self.references.retain(|listed| reference.0 != listed.0);
    }
}

fn refer(names: &mut Vec<Unresolved>, number: Option<u32>, reference: u32) -> Result<(), AllocError>
    ensures { OnOk result (names.new.items ≡ at_number (with_use reference) number 0 names.old.items) }
{
    if let Some(number) = number {
        let at = number as usize;
        if at < names.len() {
            let name = &mut names[at];
            name.refer(reference)?;
        }
    }
    Ok(())
}

fn number<'a>(numbers: &BTreeMap<&'a str, u32>, name: &'a str) -> Option<u32>
    ensures { result ≡ number_of numbers.now name.now }
{
    numbers.get(name).copied()
}

fn put<'a>(
    numbers: &mut BTreeMap<&'a str, u32>,
    name: &'a str,
    number: u32,
) -> Result<(), AllocError>
    ensures { OnOk result ((q : List ℕ) → number_of numbers.new q ≡ if bytes_eq name.now q then Some number else number_of numbers.old q) }
{
    numbers.insert(name, number)?;
    Ok(())
}

// Gives a name the next number, if it has none.
fn number_name<'a>(
    alloc: Global,
    numbers: &mut BTreeMap<&'a str, u32>,
    names: &mut Vec<Unresolved>,
    name: &'a str,
) -> Result<(), AllocError>
    requires { length names.old.items < 2 ^ 32 }
    ensures { OnOk result (IsNumbered name.now numbers.old names.old.items numbers.new names.new.items) }
{
    if number(numbers, name).is_none() {
        put(numbers, name, names.len() as u32)?;
        names.push(Unresolved::blank(alloc, name)?)?;
    }
    Ok(())
}

fn number_unbound<'a>(
    alloc: Global,
    numbers: &mut BTreeMap<&'a str, u32>,
    names: &mut Vec<Unresolved>,
    name: &Option<&'a str>,
) -> Result<(), AllocError>
    requires { length names.old.items < 2 ^ 32 }
    ensures { OnOk result (IsCounted (name_told name.now) numbers.old names.old.items numbers.new names.new.items) }
{
    match name {
        Some(name) => number_name(alloc, numbers, names, *name),
        None => Ok(()),
    }
}

// The names, each once, with their numbers.
fn number_names<'a>(
    alloc: Global,
    unbound: &[Option<&'a str>],
) -> Result<(BTreeMap<&'a str, u32>, Vec<Unresolved>), AllocError>
    requires { length unbound.now < 2 ^ 32 }
    ensures names { IfOk result (λ n. n.1.items ≡ map blank_name (names_behind [] (map name_told unbound.now))) }
    ensures numbers { IfOk result (λ n. (q : List ℕ) → number_of n.0 q ≡ name_number 0 (names_behind [] (map name_told unbound.now)) q) }
{
    let mut numbers = BTreeMap::new(alloc);
    let mut names = Vec::new(alloc);
    for name in unbound {
        number_unbound(alloc, &mut numbers, &mut names, name)?;
    }
    Ok((numbers, names))
}

fn number_in<'a>(numbers: &BTreeMap<&'a str, u32>, name: &Option<&'a str>) -> Option<u32>
    ensures { result ≡ option_and_then (number_of numbers.now) (name_told name.now) }
{
    match name {
        Some(name) => number(numbers, *name),
        None => None,
    }
}

/// Of references in order, of which those that have no symbol have a name here.
pub(crate) fn unresolved_of(
    alloc: Global,
    unbound: &[Option<&str>],
) -> Result<Vec<Unresolved>, AllocError>
    requires { length unbound.now < 2 ^ 32 }
    ensures { IfOk result (λ v. v.items ≡ unresolved_among (map name_told unbound.now)) }
{
    let (numbers, mut names) = number_names(alloc, unbound)?;
    for (i, name) in unbound.iter().enumerate() {
        let number = number_in(&numbers, name);
        refer(&mut names, number, i as u32)?;
    }
    Ok(names)
}
