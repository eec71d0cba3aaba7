// What a node makes of its context for its children.
ghost use Rattle.std.specs.Prelude.{◌≡◌, ◌∷◌, IfOk};
ghost use Rattle.js_syntax.specs.Node.{row};
ghost use Rattle.scope_rules.specs.Context.{strict_in, layers_of_parameters, layers_in};
ghost use Rattle.scope_context.specs.Listed.{listed};
ghost use Rattle.scope_context.specs.Frame.{frame_of, body_behind, layers_within};

use crate::bits::opens;
use crate::context::{
    Context, Layers, body_of, copy_layers, own_name_of, parameters_of, with_layer,
};
use form_context::{is_strict_function, is_strict_list};
use js_syntax::FunctionKind;
use js_tree::{Node, NodeKind, SourceType};
use std::alloc::{AllocError, Global};
use std::marker::Model;

/// What a node makes of its context, worked out once for all its children.
pub struct Frame {
    scope: u32,
    strict: bool,
    layers: Layers,
    body: Layers,
}

impl Drop for Frame {
    fn drop(self) {
        let Frame {
            scope: _,
            strict: _,
            layers: _,
            body: _,
        } = self;
    }
}

impl Model for Frame {
    ghost use Rattle.scope_context.specs.Frame.{Frame};
    ghost use Rattle.scope_context.specs.Listed.{listed};

    ghost Value = { Frame };

    ghost view = { λ f. record { scope = f.scope; strict = f.strict; layers = listed f.layers; body = listed f.body } };
}

fn strict_in(context: &Context, node: &Node) -> bool
    ensures { result ≡ strict_in context.now node.now.kind node.now.below }
{
    match node.kind() {
        NodeKind::Program(source) => {
            matches!(source, SourceType::Module) || is_strict_list(node.children())
        }
        NodeKind::Function { .. } => context.strict() || is_strict_function(node.children()),
        NodeKind::Class(_) => true,
        _ => context.strict(),
    }
}

// Those of a function's parameters: an expression's own name lies around them.
fn layers_of_parameters(
    alloc: Global,
    context: &Context,
    scope: u32,
    how: FunctionKind,
) -> Result<Layers, AllocError>
    ensures { IfOk result (λ l. listed l ≡ layers_of_parameters how scope context.now.layers) }
{
    match how {
        FunctionKind::Expression => {
            let own = context.with_layer(alloc, own_name_of(scope))?;
            with_layer(alloc, parameters_of(scope), &own)
        }
        _ => context.with_layer(alloc, parameters_of(scope)),
    }
}

fn layers_in(
    alloc: Global,
    context: &Context,
    scope: u32,
    node: &Node,
) -> Result<Layers, AllocError>
    ensures { IfOk result (λ l. listed l ≡ layers_in node.now.kind scope context.now.layers) }
{
    match node.kind() {
        NodeKind::Function { kind, .. } => layers_of_parameters(alloc, context, scope, *kind),
        _ => context.with_layer(alloc, body_of(scope)),
    }
}

fn layers_within(
    alloc: Global,
    context: &Context,
    scope: u32,
    node: &Node,
) -> Result<Layers, AllocError>
    ensures { IfOk result (λ l. listed l ≡ layers_within node.now.kind node.now.below scope context.now.layers) }
{
    if opens(node) {
        layers_in(alloc, context, scope, node)
    } else {
        Ok(None)
    }
}

// Those of a function's body, behind those of its parameters.
fn body_behind(alloc: Global, scope: u32, node: &Node, outer: &Layers) -> Result<Layers, AllocError>
    ensures { IfOk result (λ l. listed l ≡ body_behind node.now.kind scope (listed outer.now)) }
{
    match node.kind() {
        NodeKind::Function { .. } => with_layer(alloc, body_of(scope), outer),
        _ => Ok(None),
    }
}

impl Frame {
    /// The frame of a node whose scope, if it makes one, has this number.
    pub fn new(
        alloc: Global,
        context: &Context,
        scope: u32,
        node: &Node,
    ) -> Result<Frame, AllocError>
        ensures frame { IfOk result (λ f. f ≡ frame_of context.now scope node.now) }
    {
        let layers = layers_within(alloc, context, scope, node)?;
        let body = body_behind(alloc, scope, node, &layers)?;
        Ok(Frame {
            scope,
            strict: strict_in(context, node),
            layers,
            body,
        })
    }

    pub(crate) fn strict(&self) -> bool
        ensures { result ≡ self.now.strict }
    {
        self.strict
    }

    pub(crate) fn layers(&self) -> Result<Layers, AllocError>
        ensures { IfOk result (λ l. listed l ≡ self.now.layers) }
    {
        copy_layers(&self.layers)
    }

    pub(crate) fn body(&self) -> Result<Layers, AllocError>
        ensures { IfOk result (λ l. listed l ≡ self.now.body) }
    {
        copy_layers(&self.body)
    }
}
