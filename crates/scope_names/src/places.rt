// In which layers names are declared.
ghost use Rattle.std.specs.Prelude.{◌≡◌, ℕ, List, Bool, false, ◌&&◌, ◌||◌, nat_eq, IfOk, OnOk};
ghost use Rattle.std.specs.Str.{bytes_eq};
ghost use Rattle.scope_rules.specs.declared.layer.Layer.{Layer};
ghost use Rattle.scope_rules.specs.Binding.{same_layer, is_declared};
ghost use Rattle.scope_names.specs.Keys.{has};
ghost use Rattle.scope_names.specs.Places.{is_placed};

use crate::numbers::Key;
use name_digest::digest;
use scope_context::BindingSite;
use scope_rules::{Layer, Part};
use std::alloc::{AllocError, Global};
use std::collections::BTreeSet;

// Names with the numbers of their scopes, for each part of a scope.
#[derive(Drop)]
pub(crate) struct Places<'a> {
    own_names: BTreeSet<Key<'a>>,
    parameters: BTreeSet<Key<'a>>,
    bodies: BTreeSet<Key<'a>>,
}

fn add<'a>(places: &mut BTreeSet<Key<'a>>, scope: u32, name: &'a str) -> Result<(), AllocError>
    ensures { OnOk result ((s : ℕ) (q : List ℕ) → has places.new s q ≡ (nat_eq scope s && bytes_eq name.now q) || has places.old s q) }
{
    places.insert((digest(scope, name), scope, name))?;
    Ok(())
}

impl<'a> Places<'a> {
    fn new(alloc: Global) -> Places<'a>
        ensures { (l : Layer) (q : List ℕ) → is_placed result l q ≡ false }
    {
        Places {
            own_names: BTreeSet::new(alloc),
            parameters: BTreeSet::new(alloc),
            bodies: BTreeSet::new(alloc),
        }
    }

    fn add(&mut self, layer: Layer, name: &'a str) -> Result<(), AllocError>
        ensures { OnOk result ((l : Layer) (q : List ℕ) → is_placed self.new l q ≡ (same_layer layer l && bytes_eq name.now q) || is_placed self.old l q) }
    {
        match layer.part {
            Part::OwnName => add(&mut self.own_names, layer.scope, name),
            Part::Parameters => add(&mut self.parameters, layer.scope, name),
            Part::Body => add(&mut self.bodies, layer.scope, name),
        }
    }

    pub(crate) fn have(&self, layer: Layer, name: &'a str) -> bool
        ensures { result ≡ is_placed self.now layer name.now }
    {
        let place = (digest(layer.scope, name), layer.scope, name);
        match layer.part {
            Part::OwnName => self.own_names.contains(&place),
            Part::Parameters => self.parameters.contains(&place),
            Part::Body => self.bodies.contains(&place),
        }
    }
}

pub(crate) fn places_of<'a>(
    alloc: Global,
    sites: &[BindingSite<'a>],
) -> Result<Places<'a>, AllocError>
    ensures { IfOk result (λ p. (l : Layer) (q : List ℕ) → is_placed p l q ≡ is_declared sites.now l q) }
{
    let mut places = Places::new(alloc);
    for site in sites {
        places.add(site.layer(), site.name())?;
    }
    Ok(places)
}
