// The walk.
ghost use Rattle.std.specs.Prelude.{◌≡◌, ◌+◌, ◌^◌, ◌<◌, IfOk, OnOk};
ghost use Rattle.js_syntax.specs.Node.{forest_of};
ghost use Rattle.js_tree.specs.Count.{node_count};
ghost use Rattle.scope_rules.specs.Site.{name_sites, scope_sites, own_sites, opens_one, number_or_first, scope_count, added, found_in, sites_of};
ghost use Rattle.scope_context.specs.Frame.{frame_of};
ghost use Rattle.scope_walk.specs.Walk.{node_sites};

use js_tree::{Node, NodeKind, Program};
use scope_context::{
    BindingSite, Context, Found, Frame, ReferenceSite, ScopeSite, opens, read_bits, scope_bits,
    target_bits,
};
use std::alloc::{AllocError, Global};

fn number_or_first(scope: Option<u32>) -> u32
    ensures { result ≡ number_or_first scope }
{
    match scope {
        Some(scope) => scope,
        None => 0,
    }
}

// What a name is, if the node is one.
fn add_name<'a>(context: &Context, node: &'a Node, found: &mut Found<'a>) -> Result<(), AllocError>
    ensures { OnOk result (found.new ≡ added found.old (name_sites context.now node.now.note node.now.kind)) }
{
    match node.kind() {
        NodeKind::BindingName(name) => found.push_binding(BindingSite::new(
            node.id(),
            name.as_str(),
            context.declared_in(),
            context.declared_as(),
            context.is_pure(),
            node.span(),
        )),
        NodeKind::ReferenceName(name) => {
            let layers = context.layers()?;
            let scope = number_or_first(context.scope());
            let bits = read_bits(context.role());
            found.push_reference(ReferenceSite::new(node.id(), name.as_str(), scope, layers, bits))
        }
        NodeKind::TargetName(name) => {
            let layers = context.layers()?;
            let scope = number_or_first(context.scope());
            let bits = target_bits(context.role());
            found.push_reference(ReferenceSite::new(node.id(), name.as_str(), scope, layers, bits))
        }
        _ => Ok(()),
    }
}

// The scope that a node makes, and the name that it is.
fn add_own<'a>(
    context: &Context,
    frame: &Frame,
    node: &'a Node,
    found: &mut Found<'a>,
) -> Result<(), AllocError>
    requires frame { frame.now ≡ frame_of context.now frame.now.scope node.now }
    ensures { OnOk result (found.new ≡ added found.old (own_sites context.now node.now.note node.now.kind node.now.below)) }
{
    if opens(node) {
        found.push_scope(ScopeSite::new(
            node.id(),
            context.scope(),
            scope_bits(context, frame, node),
        ))?;
    }
    add_name(context, node, found)
}

fn opens_one(node: &Node) -> u32
    ensures { result ≡ opens_one node.now.kind node.now.below }
{
    if opens(node) { 1 } else { 0 }
}

// Adds the sites of a node of this context, and of all that lies below it, where `next` is the number of
// the next scope, and answers that of the scope behind them. The recursion goes as deep as the tree.
fn add_sites<'a>(
    alloc: Global,
    context: &Context,
    node: &'a Node,
    next: u32,
    found: &mut Found<'a>,
) -> Result<u32, AllocError>
    requires fits { next + scope_count (forest_of node.now) < 2 ^ 32 }
    ensures next { IfOk result (λ n. n ≡ next + scope_count (forest_of node.now)) }
    ensures found { OnOk result (found.new ≡ added found.old (node_sites context.now next node.now)) }
{
    let scope = next;
    let frame = Frame::new(alloc, context, scope, node)?;
    add_own(context, &frame, node, found)?;
    let mut next = scope + opens_one(node);
    let children = node.children();
    for (at, child) in children.iter().enumerate() {
        if let Some(child) = child {
            let inner = context.inside(node, &frame, scope, at)?;
            next = add_sites(alloc, &inner, child, next, found)?;
        }
    }
    Ok(next)
}

/// The scopes, bindings and references of a program, each sort in order of places. A scope's number is
/// how many stand before it.
pub fn find_sites<'a>(alloc: Global, program: &'a Program) -> Result<Found<'a>, AllocError>
    requires small { node_count (forest_of program.now) < 2 ^ 32 }
    ensures sites { IfOk result (λ f. f ≡ found_in (sites_of (forest_of program.now))) }
{
    let mut found = Found::new(alloc);
    add_sites(alloc, &Context::outermost(), program.root(), 0, &mut found)?;
    Ok(found)
}
