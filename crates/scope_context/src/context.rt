// The context of a node.
ghost use Rattle.std.specs.Prelude.{◌≡◌, ◌∷◌, ◌++◌, IfOk, OnOk};
ghost use Rattle.scope_rules.specs.Context.{body_of, parameters_of, own_name_of, entered, declares, used, below_it, as_constructor, outermost};
ghost use Rattle.scope_context.specs.Listed.{listed};

use scope_rules::{Layer, Part, Role};
use std::alloc::{AllocError, Global};
use std::marker::Model;
use std::rc::Rc;

/// Layers that contexts share, innermost first. Without a list there are none.
pub type Layers = Option<Rc<Vec<Layer>>>;

pub(crate) fn body_of(scope: u32) -> Layer
    ensures { result ≡ body_of scope }
{
    Layer {
        scope,
        part: Part::Body,
    }
}

pub(crate) fn parameters_of(scope: u32) -> Layer
    ensures { result ≡ parameters_of scope }
{
    Layer {
        scope,
        part: Part::Parameters,
    }
}

pub(crate) fn own_name_of(scope: u32) -> Layer
    ensures { result ≡ own_name_of scope }
{
    Layer {
        scope,
        part: Part::OwnName,
    }
}

// The same list once more.
pub(crate) fn copy_layers(layers: &Layers) -> Result<Layers, AllocError>
    ensures { IfOk result (λ l. listed l ≡ listed layers.now) }
{
    match layers {
        Some(layers) => Ok(Some(layers.clone()?)),
        None => Ok(None),
    }
}

fn add_layers(layers: &[Layer], all: &mut Vec<Layer>) -> Result<(), AllocError>
    ensures { OnOk result (all.new.items ≡ all.old.items ++ layers.now) }
{
    for layer in layers {
        all.push(*layer)?;
    }
    Ok(())
}

// A layer, and behind it others.
pub(crate) fn with_layer(alloc: Global, layer: Layer, layers: &Layers) -> Result<Layers, AllocError>
    ensures { IfOk result (λ l. listed l ≡ layer ∷ listed layers.now) }
{
    let mut all = Vec::new(alloc);
    all.push(layer)?;
    if let Some(layers) = layers {
        add_layers(layers.as_slice(), &mut all)?;
    }
    Ok(Some(Rc::new(alloc, all)?))
}

/// What stands around a node.
pub struct Context {
    layers: Layers,
    scope: Option<u32>,
    variables: Layer,
    block: Layer,
    declared_in: Layer,
    declared_as: u8,
    is_pure: bool,
    role: Role,
    strict: bool,
    constructs: bool,
}

impl Drop for Context {
    fn drop(self) {
        let Context {
            layers: _,
            scope: _,
            variables: _,
            block: _,
            declared_in: _,
            declared_as: _,
            is_pure: _,
            role: _,
            strict: _,
            constructs: _,
        } = self;
    }
}

impl Model for Context {
    ghost use Rattle.scope_rules.specs.Context.{Context};
    ghost use Rattle.scope_context.specs.Listed.{listed};

    ghost Value = { Context };

    ghost view = { λ c. record { layers = listed c.layers; scope = c.scope; variables = c.variables; block = c.block; declaring = record { layer = c.declared_in; flags = c.declared_as; is_pure = c.is_pure }; role = c.role; strict = c.strict; constructs = c.constructs } };
}

impl Context {
    /// That of a program.
    pub fn outermost() -> Context
        ensures outermost { result ≡ outermost }
    {
        let layer = body_of(0);
        Context {
            layers: None,
            scope: None,
            variables: layer,
            block: layer,
            declared_in: layer,
            declared_as: 0,
            is_pure: false,
            role: Role::Read,
            strict: false,
            constructs: false,
        }
    }

    // Used so.
    pub(crate) fn used(&self, role: Role) -> Result<Context, AllocError>
        ensures { IfOk result (λ c. c ≡ used role self.now) }
    {
        Ok(Context {
            layers: copy_layers(&self.layers)?,
            scope: self.scope,
            variables: self.variables,
            block: self.block,
            declared_in: self.declared_in,
            declared_as: self.declared_as,
            is_pure: self.is_pure,
            role,
            strict: self.strict,
            constructs: false,
        })
    }

    // That of a child of which nothing is said alone.
    pub(crate) fn below_it(&self) -> Result<Context, AllocError>
        ensures { IfOk result (λ c. c ≡ below_it self.now) }
    {
        self.used(Role::Read)
    }

    pub(crate) fn as_constructor(&self) -> Result<Context, AllocError>
        ensures { IfOk result (λ c. c ≡ as_constructor self.now) }
    {
        let mut context = self.below_it()?;
        context.constructs = true;
        Ok(context)
    }

    // Where binding names declare so.
    pub(crate) fn declares(
        &self,
        layer: Layer,
        flags: u8,
        is_pure: bool,
    ) -> Result<Context, AllocError>
        ensures { IfOk result (λ c. c ≡ declares self.now layer flags is_pure) }
    {
        let mut context = self.below_it()?;
        context.declared_in = layer;
        context.declared_as = flags;
        context.is_pure = is_pure;
        Ok(context)
    }

    // In a scope, whose names are in these layers.
    pub(crate) fn entered(
        &self,
        scope: u32,
        variables: Layer,
        block: Layer,
        layers: Layers,
        strict: bool,
    ) -> Context
        ensures { result ≡ entered self.now scope variables block (listed layers) strict }
    {
        Context {
            layers,
            scope: Some(scope),
            variables,
            block,
            declared_in: self.declared_in,
            declared_as: self.declared_as,
            is_pure: self.is_pure,
            role: Role::Read,
            strict,
            constructs: false,
        }
    }

    /// The layers around, innermost first.
    pub fn layers(&self) -> Result<Layers, AllocError>
        ensures layers { IfOk result (λ l. listed l ≡ self.now.layers) }
    {
        copy_layers(&self.layers)
    }

    // A layer, and behind it those around.
    pub(crate) fn with_layer(&self, alloc: Global, layer: Layer) -> Result<Layers, AllocError>
        ensures { IfOk result (λ l. listed l ≡ layer ∷ self.now.layers) }
    {
        with_layer(alloc, layer, &self.layers)
    }

    /// The number of the innermost scope.
    pub fn scope(&self) -> Option<u32>
        ensures scope { result ≡ self.now.scope }
    {
        self.scope
    }

    pub(crate) fn variables(&self) -> Layer
        ensures { result ≡ self.now.variables }
    {
        self.variables
    }

    pub(crate) fn block(&self) -> Layer
        ensures { result ≡ self.now.block }
    {
        self.block
    }

    /// Where a binding name declares.
    pub fn declared_in(&self) -> Layer
        ensures layer { result ≡ self.now.declaring.layer }
    {
        self.declared_in
    }

    /// The bits of the symbol that it declares.
    pub fn declared_as(&self) -> u8
        ensures flags { result ≡ self.now.declaring.flags }
    {
        self.declared_as
    }

    /// Whether it declares a function that is marked to have no side effects.
    pub fn is_pure(&self) -> bool
        ensures pure { result ≡ self.now.declaring.is_pure }
    {
        self.is_pure
    }

    /// How what stands here is used.
    pub fn role(&self) -> Role
        ensures role { result ≡ self.now.role }
    {
        self.role
    }

    pub(crate) fn strict(&self) -> bool
        ensures { result ≡ self.now.strict }
    {
        self.strict
    }

    pub(crate) fn constructs(&self) -> bool
        ensures { result ≡ self.now.constructs }
    {
        self.constructs
    }
}
