// The symbols, in order of their first declarations, and the number of each.
ghost use Rattle.std.specs.Prelude.{◌≡◌, ◌<◌, ◌^◌, ◌∷◌, ◌++◌, [], ℕ, List, Bool, false, length, is_some, nat_eq, Option, None, Some, IfOk, OnOk, if◌then◌else◌, ◌&&◌};
ghost use Rattle.std.specs.Str.{bytes_eq};
ghost use Rattle.scope_rules.specs.Binding.{Binding, named_in, declared_by};
ghost use Rattle.scope_rules.specs.Table.{same_binding, symbol_of, symbols_of};
ghost use Rattle.scope_names.specs.Keys.{at};
ghost use Rattle.scope_names.specs.Numbers.{number_at};

use name_digest::digest;
use scope_context::BindingSite;
use scope_rules::{Layer, Part};
use std::alloc::{AllocError, Global};
use std::collections::BTreeMap;
use std::marker::Model;

/// What a symbol is: a name of a scope, or the own name of a function expression there.
#[derive(Drop)]
pub struct First<'a> {
    scope: u32,
    is_own: bool,
    name: &'a str,
}

impl<'a> Model for First<'a> {
    ghost use Rattle.scope_rules.specs.Binding.{Binding};

    ghost Value = { Binding };

    ghost view = { λ b. record { scope = b.scope; is_own = b.is_own; name = b.name.now } };
}

impl<'a> First<'a> {
    // What a name is that a layer declares.
    pub(crate) fn in_layer(layer: Layer, name: &'a str) -> First<'a>
        ensures { result ≡ named_in name.now layer }
    {
        First {
            scope: layer.scope,
            is_own: matches!(layer.part, Part::OwnName),
            name,
        }
    }

    // The same name as a parameter or a name of the body.
    pub(crate) fn in_body(&self) -> First<'a>
        ensures { result ≡ record { scope = self.now.scope; is_own = false; name = self.now.name } }
    {
        First {
            scope: self.scope,
            is_own: false,
            name: self.name,
        }
    }

    pub fn scope(&self) -> u32
        ensures scope { result ≡ self.now.scope }
    {
        self.scope
    }

    pub fn is_own(&self) -> bool
        ensures is_own { result ≡ self.now.is_own }
    {
        self.is_own
    }

    pub fn name(&self) -> &'a str
        ensures name { result.now ≡ self.now.name }
    {
        self.name
    }
}

/// By what names are sought: most differ in their digests, and are told apart by these.
pub(crate) type Key<'a> = (u64, u32, &'a str);

// The numbers of own names, and of all other names.
#[derive(Drop)]
pub(crate) struct Numbers<'a> {
    own_names: BTreeMap<Key<'a>, u32>,
    names: BTreeMap<Key<'a>, u32>,
}

fn put<'a>(
    numbers: &mut BTreeMap<Key<'a>, u32>,
    scope: u32,
    name: &'a str,
    number: u32,
) -> Result<(), AllocError>
    ensures { OnOk result ((s : ℕ) (q : List ℕ) → at numbers.new s q ≡ if nat_eq scope s && bytes_eq name.now q then Some number else at numbers.old s q) }
{
    numbers.insert((digest(scope, name), scope, name), number)?;
    Ok(())
}

fn get<'a>(numbers: &BTreeMap<Key<'a>, u32>, scope: u32, name: &'a str) -> Option<u32>
    ensures { result ≡ at numbers.now scope name.now }
{
    numbers.get(&(digest(scope, name), scope, name)).copied()
}

impl<'a> Numbers<'a> {
    fn new(alloc: Global) -> Numbers<'a>
        ensures { (q : Binding) → number_at result q ≡ None }
    {
        Numbers {
            own_names: BTreeMap::new(alloc),
            names: BTreeMap::new(alloc),
        }
    }

    fn put(&mut self, first: &First<'a>, number: u32) -> Result<(), AllocError>
        ensures { OnOk result ((q : Binding) → number_at self.new q ≡ if same_binding first.now q then Some number else number_at self.old q) }
    {
        if first.is_own() {
            put(&mut self.own_names, first.scope(), first.name(), number)
        } else {
            put(&mut self.names, first.scope(), first.name(), number)
        }
    }

    pub(crate) fn get(&self, first: &First<'a>) -> Option<u32>
        ensures { result ≡ number_at self.now first.now }
    {
        if first.is_own() {
            get(&self.own_names, first.scope(), first.name())
        } else {
            get(&self.names, first.scope(), first.name())
        }
    }
}

// Gives a binding the next number, if it has none.
fn number_first<'a>(
    numbers: &mut Numbers<'a>,
    firsts: &mut Vec<First<'a>>,
    first: First<'a>,
) -> Result<(), AllocError>
    requires { length firsts.old.items < 2 ^ 32 }
    ensures firsts { OnOk result (firsts.new.items ≡ (if is_some (number_at numbers.old first.entry) then firsts.old.items else firsts.old.items ++ first.entry ∷ [])) }
    ensures numbers { OnOk result ((q : Binding) → number_at numbers.new q
        ≡ (if is_some (number_at numbers.old first.entry) then number_at numbers.old q else if same_binding first.entry q then Some (length firsts.old.items) else number_at numbers.old q)) }
{
    if numbers.get(&first).is_none() {
        numbers.put(&first, firsts.len() as u32)?;
        firsts.push(first)?;
    }
    Ok(())
}

pub(crate) fn numbers_of<'a>(
    alloc: Global,
    sites: &[BindingSite<'a>],
) -> Result<(Numbers<'a>, Vec<First<'a>>), AllocError>
    requires { length sites.now < 2 ^ 32 }
    ensures firsts { IfOk result (λ n. n.1.items ≡ symbols_of sites.now) }
    ensures numbers { IfOk result (λ n. (q : Binding) → number_at n.0 q ≡ symbol_of sites.now q) }
{
    let mut numbers = Numbers::new(alloc);
    let mut firsts = Vec::new(alloc);
    for site in sites {
        let first = First::in_layer(site.layer(), site.name());
        number_first(&mut numbers, &mut firsts, first)?;
    }
    Ok((numbers, firsts))
}
