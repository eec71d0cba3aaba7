// What is found of names in a tree.
ghost use Rattle.std.specs.Prelude.{◌≡◌};

use crate::role::Half;
use crate::sought::Sort;
use std::marker::Model;

/// A name that is declared at a place, and how.
#[derive(Drop)]
pub struct Declared<'a> {
    name: &'a str,
    place: u32,
    sort: Sort,
}

impl<'a> Model for Declared<'a> {
    ghost use Rattle.form_rules.specs.Scope.{Declared};

    ghost Value = { Declared };

    ghost view = { λ d. record { name = d.name.now; place = d.place; sort = d.sort } };
}

impl<'a> Declared<'a> {
    pub fn new(name: &'a str, place: u32, sort: Sort) -> Declared<'a>
        ensures { result ≡ record { name = name.now; place = place; sort = sort } }
    {
        Declared { name, place, sort }
    }

    pub fn name(&self) -> &'a str
        ensures { result.now ≡ self.now.name }
    {
        self.name
    }

    pub fn place(&self) -> u32
        ensures { result ≡ self.now.place }
    {
        self.place
    }

    pub fn sort(&self) -> Sort
        ensures { result ≡ self.now.sort }
    {
        self.sort
    }
}

/// A name that is exported at a place.
#[derive(Drop)]
pub struct Exported<'a> {
    name: &'a str,
    place: u32,
}

impl<'a> Model for Exported<'a> {
    ghost use Rattle.form_rules.specs.Rules.{Exported};

    ghost Value = { Exported };

    ghost view = { λ e. record { name = e.name.now; place = e.place } };
}

impl<'a> Exported<'a> {
    pub fn new(name: &'a str, place: u32) -> Exported<'a>
        ensures { result ≡ record { name = name.now; place = place } }
    {
        Exported { name, place }
    }

    pub fn name(&self) -> &'a str
        ensures { result.now ≡ self.now.name }
    {
        self.name
    }

    pub fn place(&self) -> u32
        ensures { result ≡ self.now.place }
    {
        self.place
    }
}

/// A private name that a class declares at a place, as a half of a property or the whole of it.
#[derive(Drop)]
pub struct Private<'a> {
    name: &'a str,
    place: u32,
    half: Half,
    is_static: bool,
}

impl<'a> Model for Private<'a> {
    ghost use Rattle.form_rules.specs.Rules.{Private};

    ghost Value = { Private };

    ghost view = { λ p. record { name = p.name.now; place = p.place; half = p.half; is_static = p.is_static } };
}

impl<'a> Private<'a> {
    pub fn new(name: &'a str, place: u32, half: Half, is_static: bool) -> Private<'a>
        ensures { result ≡ record { name = name.now; place = place; half = half; is_static = is_static } }
    {
        Private {
            name,
            place,
            half,
            is_static,
        }
    }

    pub fn name(&self) -> &'a str
        ensures { result.now ≡ self.now.name }
    {
        self.name
    }

    pub fn place(&self) -> u32
        ensures { result ≡ self.now.place }
    {
        self.place
    }

    pub fn half(&self) -> Half
        ensures { result ≡ self.now.half }
    {
        self.half
    }

    pub fn is_static(&self) -> bool
        ensures { result ≡ self.now.is_static }
    {
        self.is_static
    }
}
