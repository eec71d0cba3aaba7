// All declarations of a tree, with a map of their names.
ghost use Rattle.std.specs.Prelude.{◌≡◌, ◌<◌, ◌^◌, length, map, IfOk};
ghost use Rattle.scope_rules.specs.Binding.{is_declared, binding_layer};
ghost use Rattle.scope_rules.specs.Table.{symbols_of, symbol_declared, symbol_used, is_hidden, symbols_declared};

use crate::numbers::{First, Numbers, numbers_of};
use crate::places::{Places, places_of};
use scope_context::{BindingSite, ReferenceSite};
use scope_rules::Layer;
use std::alloc::{AllocError, Global};
use std::marker::Model;

/// The declarations of a tree, with their symbols.
pub struct Declared<'f, 'a> {
    sites: &'f [BindingSite<'a>],
    places: Places<'a>,
    numbers: Numbers<'a>,
    firsts: Vec<First<'a>>,
}

impl<'f, 'a> Drop for Declared<'f, 'a> {
    fn drop(self) {
        let Declared {
            sites: _,
            places: _,
            numbers: _,
            firsts: _,
        } = self;
    }
}

impl<'f, 'a> Model for Declared<'f, 'a> {
    ghost use Rattle.std.specs.Prelude.{List};
    ghost use Rattle.scope_rules.specs.Site.{BindingSite};
    ghost use Rattle.scope_names.specs.Indexed.{AreIndexed};

    ghost Value = { List BindingSite };

    ghost view = { λ d. d.sites.now };

    ghost invariant = { λ d. AreIndexed d.sites.now d.places d.numbers d.firsts.items };
}

impl<'f, 'a> Declared<'f, 'a> {
    /// Those of these sites, in order.
    pub fn new(alloc: Global, sites: &'f [BindingSite<'a>]) -> Result<Declared<'f, 'a>, AllocError>
        requires { length sites.now < 2 ^ 32 }
        ensures declared { IfOk result (λ d. d ≡ sites.now) }
    {
        let places = places_of(alloc, sites)?;
        let (numbers, firsts) = numbers_of(alloc, sites)?;
        Ok(Declared {
            sites,
            places,
            numbers,
            firsts,
        })
    }

    /// The symbols, in order of their first declarations. A symbol's number is its place here.
    pub fn symbols(&self) -> &[First<'a>]
        ensures symbols { result.now ≡ symbols_of self.now }
    {
        self.firsts.as_slice()
    }

    /// The number of the symbol that a site declares.
    pub fn symbol_declared(&self, site: &BindingSite<'a>) -> Option<u32>
        ensures symbol { result ≡ symbol_declared self.now site.now }
    {
        let first = First::in_layer(site.layer(), site.name());
        self.numbers.get(&first)
    }

    /// The declarations, in order.
    pub fn sites(&self) -> &'f [BindingSite<'a>]
        ensures sites { result.now ≡ self.now }
    {
        self.sites
    }

    fn declares(&self, layer: Layer, name: &'a str) -> bool
        ensures { result ≡ is_declared self.now layer name.now }
    {
        self.places.have(layer, name)
    }

    // The innermost of these layers that declares the name.
    fn layer_of(&self, layers: &[Layer], name: &'a str) -> Option<Layer>
        ensures { result ≡ binding_layer self.now layers.now name.now }
    {
        for layer in layers {
            if self.declares(*layer, name) {
                return Some(*layer);
            }
        }
        None
    }

    /// The number of the symbol that a reference has.
    pub fn symbol_used(&self, site: &ReferenceSite<'a>) -> Option<u32>
        ensures symbol { result ≡ symbol_used self.now site.now }
    {
        match self.layer_of(site.layers(), site.name()) {
            Some(layer) => self.numbers.get(&First::in_layer(layer, site.name())),
            None => None,
        }
    }

    /// Whether a symbol is an own name that a parameter or a name of the body hides.
    pub fn is_hidden(&self, symbol: &First<'a>) -> bool
        ensures hidden { result ≡ is_hidden (symbols_of self.now) symbol.now }
    {
        symbol.is_own() && self.numbers.get(&symbol.in_body()).is_some()
    }

    /// The symbol of each declaration, in order.
    pub fn symbols_declared(&self, alloc: Global) -> Result<Vec<u32>, AllocError>
        ensures symbols { IfOk result (λ v. v.items ≡ symbols_declared self.now) }
    {
        let sites = self.sites();
        let mut symbols = Vec::new(alloc);
        for site in sites {
            symbols.push(self.symbol_declared(site).unwrap_or(0))?;
        }
        Ok(symbols)
    }
}
