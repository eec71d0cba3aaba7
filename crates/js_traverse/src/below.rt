// The scopes inside nodes, put into another.
ghost use Rattle.std.specs.Prelude.{◌≡◌, ◌<◌, ◌++◌, map, length, OnOk};
ghost use Rattle.std.specs.Option.{option_to_list};
ghost use Rattle.js_syntax.specs.Node.{forest_of, row};
ghost use Rattle.js_traverse.specs.Below.{outermost, with_parents, MayMove};

use js_syntax::ScopeId;
use js_tree::Node;
use scope_context::opens;
use scope_table::Scoping;
use std::alloc::AllocError;

fn add_own(node: &Node, found: &mut Vec<ScopeId>) -> Result<(), AllocError>
    ensures { OnOk result (map (λ s. s.0) found.new.items ≡ map (λ s. s.0) found.old.items ++ option_to_list node.now.note.id) }
{
    if let Some(id) = node.id() {
        found.push(ScopeId(id))?;
    }
    Ok(())
}

// Adds the scopes of the outermost nodes that make one. The recursion goes as deep as these.
pub(crate) fn add_outermost(node: &Node, found: &mut Vec<ScopeId>) -> Result<(), AllocError>
    ensures { OnOk result (map (λ s. s.0) found.new.items ≡ map (λ s. s.0) found.old.items ++ outermost (forest_of node.now)) }
{
    if opens(node) {
        return add_own(node, found);
    }
    let children = node.children();
    for child in children {
        if let Some(child) = child {
            add_outermost(child, found)?;
        }
    }
    Ok(())
}

pub(crate) fn add_outermost_among(
    nodes: &[Option<Node>],
    found: &mut Vec<ScopeId>,
) -> Result<(), AllocError>
    ensures { OnOk result (map (λ s. s.0) found.new.items ≡ map (λ s. s.0) found.old.items ++ outermost (row nodes.now)) }
{
    for node in nodes {
        if let Some(node) = node {
            add_outermost(node, found)?;
        }
    }
    Ok(())
}

// Puts scopes into one.
pub(crate) fn put_into(scoping: &mut Scoping, scopes: &[ScopeId], parent: ScopeId)
    requires parent { parent.0 < length scoping.old.scopes }
    requires scopes { MayMove (map (λ s. s.0) scopes.now) parent.0 scoping.old }
    ensures { scoping.new ≡ with_parents (map (λ s. s.0) scopes.now) parent.0 scoping.old }
{
    for scope in scopes {
        scoping.set_scope_parent_id(*scope, Some(parent));
    }
}
