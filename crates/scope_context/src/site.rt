// One scope, one declared name, one name that is used.
ghost use Rattle.std.specs.Prelude.{◌≡◌};
ghost use Rattle.scope_context.specs.Listed.{listed};

use js_syntax::Span;
use scope_rules::Layer;
use std::marker::Model;
use std::rc::Rc;

/// A scope: the mark of its node, the number of the scope around it, and the bits of its flags.
#[derive(Drop)]
pub struct ScopeSite {
    id: Option<u32>,
    parent: Option<u32>,
    flags: u16,
}

impl Model for ScopeSite {
    ghost use Rattle.scope_rules.specs.Site.{ScopeSite};

    ghost Value = { ScopeSite };

    ghost view = { λ s. record { id = s.id; parent = s.parent; flags = s.flags } };
}

impl ScopeSite {
    pub fn new(id: Option<u32>, parent: Option<u32>, flags: u16) -> ScopeSite
        ensures site { result ≡ record { id = id; parent = parent; flags = flags } }
    {
        ScopeSite { id, parent, flags }
    }

    pub fn id(&self) -> Option<u32>
        ensures id { result ≡ self.now.id }
    {
        self.id
    }

    pub fn parent(&self) -> Option<u32>
        ensures parent { result ≡ self.now.parent }
    {
        self.parent
    }

    pub fn flags(&self) -> u16
        ensures flags { result ≡ self.now.flags }
    {
        self.flags
    }
}

/// A name that is declared: in which layer, with which bits, and whether as a function without side effects.
#[derive(Drop)]
pub struct BindingSite<'a> {
    id: Option<u32>,
    name: &'a str,
    layer: Layer,
    flags: u8,
    is_pure: bool,
    span: Span,
}

impl<'a> Model for BindingSite<'a> {
    ghost use Rattle.scope_rules.specs.Site.{BindingSite};

    ghost Value = { BindingSite };

    ghost view = { λ b. record { id = b.id; name = b.name.now; layer = b.layer; flags = b.flags; is_pure = b.is_pure; span = b.span } };
}

impl<'a> BindingSite<'a> {
    pub fn new(
        id: Option<u32>,
        name: &'a str,
        layer: Layer,
        flags: u8,
        is_pure: bool,
        span: Span,
    ) -> BindingSite<'a>
        ensures site { result ≡ record { id = id; name = name.now; layer = layer; flags = flags; is_pure = is_pure; span = span } }
    {
        BindingSite {
            id,
            name,
            layer,
            flags,
            is_pure,
            span,
        }
    }

    pub fn id(&self) -> Option<u32>
        ensures id { result ≡ self.now.id }
    {
        self.id
    }

    pub fn name(&self) -> &'a str
        ensures name { result.now ≡ self.now.name }
    {
        self.name
    }

    pub fn layer(&self) -> Layer
        ensures layer { result ≡ self.now.layer }
    {
        self.layer
    }

    pub fn flags(&self) -> u8
        ensures flags { result ≡ self.now.flags }
    {
        self.flags
    }

    pub fn is_pure(&self) -> bool
        ensures is_pure { result ≡ self.now.is_pure }
    {
        self.is_pure
    }

    pub fn span(&self) -> Span
        ensures span { result ≡ self.now.span }
    {
        self.span
    }
}

/// A name that is read or assigned: in which scope, with which layers around it, innermost first, and with
/// which bits. Sites share their layers; none are an empty list.
#[derive(Drop)]
pub struct ReferenceSite<'a> {
    id: Option<u32>,
    name: &'a str,
    scope: u32,
    layers: Option<Rc<Vec<Layer>>>,
    flags: u8,
}

impl<'a> Model for ReferenceSite<'a> {
    ghost use Rattle.scope_rules.specs.Site.{ReferenceSite};
    ghost use Rattle.scope_context.specs.Listed.{listed};

    ghost Value = { ReferenceSite };

    ghost view = { λ r. record { id = r.id; name = r.name.now; scope = r.scope; layers = listed r.layers; flags = r.flags } };
}

impl<'a> ReferenceSite<'a> {
    pub fn new(
        id: Option<u32>,
        name: &'a str,
        scope: u32,
        layers: Option<Rc<Vec<Layer>>>,
        flags: u8,
    ) -> ReferenceSite<'a>
        ensures site { result ≡ record { id = id; name = name.now; scope = scope; layers = listed layers; flags = flags } }
    {
        ReferenceSite {
            id,
            name,
            scope,
            layers,
            flags,
        }
    }

    pub fn id(&self) -> Option<u32>
        ensures id { result ≡ self.now.id }
    {
        self.id
    }

    pub fn name(&self) -> &'a str
        ensures name { result.now ≡ self.now.name }
    {
        self.name
    }

    pub fn scope(&self) -> u32
        ensures scope { result ≡ self.now.scope }
    {
        self.scope
    }

    /// The layers around it, innermost first.
    pub fn layers(&self) -> &[Layer]
        ensures layers { result.now ≡ self.now.layers }
    {
        match &self.layers {
            Some(layers) => layers.as_slice(),
            None => &[],
        }
    }

    pub fn flags(&self) -> u8
        ensures flags { result ≡ self.now.flags }
    {
        self.flags
    }
}
