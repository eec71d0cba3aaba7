// The names that a pattern declares.
ghost use Rattle.std.specs.Prelude.{◌≡◌, ◌++◌, IfOk, map};
ghost use Rattle.std.specs.Option.{option_map};
ghost use Rattle.js_syntax.specs.Node.{row, forest_of};
ghost use Rattle.js_tree.specs.Names.{part_below, is_name, names_of, looked, chosen, names_declared};
ghost use Rattle.js_tree.specs.Parts.{part_view};

use crate::Node;
use js_syntax::NodeKind;
use std::alloc::{AllocError, Global};

// Which of the nodes of a row are looked at.
#[derive(Clone, Copy)]
enum Look {
    All,
    First,
    BehindFirst,
}

// Which of the nodes below may declare names.
fn look_below(kind: &NodeKind) -> Option<Look>
    ensures { option_map part_view result ≡ part_below kind.now }
{
    match kind {
        NodeKind::BindingDefault => Some(Look::First),
        NodeKind::BindingProperty(_) => Some(Look::BehindFirst),
        NodeKind::BindingObject
        | NodeKind::BindingArray
        | NodeKind::BindingRest
        | NodeKind::Properties
        | NodeKind::Elements => Some(Look::All),
        _ => None,
    }
}

fn is_name(kind: &NodeKind) -> bool
    ensures { result ≡ is_name kind.now }
{
    matches!(kind, NodeKind::BindingName(_))
}

// The names of a node, behind those that are there.
#[cycle(names)]
fn names_of_node<'a>(names: Vec<&'a Node>, node: &'a Node) -> Result<Vec<&'a Node>, AllocError>
    ensures { IfOk result (λ v. map (λ n. n.now) v.items ≡ map (λ n. n.now) names.entry.items ++ names_of node.now (looked node.now.below)) }
{
    let mut names = names;
    if is_name(node.kind()) {
        names.push(node)?;
        return Ok(names);
    }
    match look_below(node.kind()) {
        Some(Look::All) => names_of_row(names, node.children()),
        Some(Look::First) => match node.children().first() {
            Some(Some(child)) => names_of_node(names, child),
            _ => Ok(names),
        },
        Some(Look::BehindFirst) => match node.children() {
            [_, rest @ ..] => names_of_row(names, rest),
            [] => Ok(names),
        },
        None => Ok(names),
    }
}

// The names of the nodes of a row, behind those that are there.
#[cycle(names)]
fn names_of_row<'a>(
    names: Vec<&'a Node>,
    children: &'a [Option<Node>],
) -> Result<Vec<&'a Node>, AllocError>
    ensures { IfOk result (λ v. map (λ n. n.now) v.items ≡ map (λ n. n.now) names.entry.items ++ (looked (row children.now)).all) }
{
    let mut names = names;
    let mut rest = children;
    while let [first, others @ ..] = rest {
        if let Some(node) = first {
            names = names_of_node(names, node)?;
        }
        rest = others;
    }
    Ok(names)
}

/// The binding identifiers of a pattern, in order of places (ECMA-262 8.2.1): the pattern itself where it is a name, and those
/// below an object or array pattern, a default or a rest. Each is the node of the tree, which has its name, its span and,
/// in a marked tree, its symbol.
pub fn bound_names(alloc: Global, pattern: &Node) -> Result<Vec<&Node>, AllocError>
    ensures identifiers { IfOk result (λ v. map (λ n. n.now) v.items ≡ names_declared (forest_of pattern.now)) }
{
    names_of_node(Vec::new(alloc), pattern)
}
