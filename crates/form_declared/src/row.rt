// Nodes of a row that break a rule by where they stand.
ghost use Rattle.std.specs.Prelude.{◌≡◌, ◌+◌, ◌^◌, ◌<◌, IfOk};
ghost use Rattle.js_syntax.specs.Node.{row};
ghost use Rattle.js_tree.specs.Count.{node_count};
ghost use Rattle.form_rules.specs.Rules.{places_of, is_default, is_constructor, is_declarator_wrong, is_rest, is_name_first, is_constant, has_initializer, early_rests};
ghost use Rattle.form_declared.specs.Part.{part_test, has_part, places};

use crate::place::behind_node;
use crate::rows::is_absent;
use js_syntax::{MethodKind, VariableKind};
use js_tree::{Node, NodeKind};
use std::alloc::{AllocError, Global};

/// Which nodes of a row are asked for.
#[derive(Clone, Copy)]
enum Part {
    Default,
    Constructor,
    EarlyRest,
    WrongDeclarator { is_head: bool, how: VariableKind },
}

fn is_name_first(nodes: &[Option<Node>]) -> bool
    ensures { result ≡ is_name_first (row nodes.now) }
{
    match nodes {
        [Some(first), ..] => match first.kind() {
            NodeKind::BindingName(_) => true,
            _ => false,
        },
        _ => false,
    }
}

fn has_initializer(nodes: &[Option<Node>]) -> bool
    ensures { result ≡ has_initializer (row nodes.now) }
{
    match nodes {
        [_, others @ ..] => !is_absent(others),
        [] => true,
    }
}

fn is_default(node: &Node) -> bool
    ensures { result ≡ is_default node.now.kind node.now.below }
{
    match node.kind() {
        NodeKind::SwitchCase => is_absent(node.children()),
        _ => false,
    }
}

fn is_constructor(node: &Node) -> bool
    ensures { result ≡ is_constructor node.now.kind node.now.below }
{
    match node.kind() {
        NodeKind::MethodDefinition {
            kind: MethodKind::Constructor,
            ..
        } => true,
        _ => false,
    }
}

fn is_rest(kind: &NodeKind) -> bool
    ensures { result ≡ is_rest kind.now }
{
    match kind {
        NodeKind::BindingRest | NodeKind::TargetRest => true,
        _ => false,
    }
}

fn is_constant(how: VariableKind) -> bool
    ensures { result ≡ is_constant how }
{
    match how {
        VariableKind::Const => true,
        _ => false,
    }
}

// In the head of a `for`-`in` or `for`-`of` nothing has an initialiser; elsewhere a pattern and a
// constant have one.
fn is_declarator_wrong(is_head: bool, how: VariableKind, node: &Node) -> bool
    ensures { result ≡ is_declarator_wrong is_head how node.now.kind node.now.below }
{
    let has_initializer = has_initializer(node.children());
    if is_head {
        has_initializer
    } else {
        !has_initializer && (is_constant(how) || !is_name_first(node.children()))
    }
}

fn is_part(part: Part, node: &Node, is_last: bool) -> bool
    ensures { result ≡ part_test part node.now.kind node.now.below is_last }
{
    match part {
        Part::Default => is_default(node),
        Part::Constructor => is_constructor(node),
        Part::EarlyRest => is_rest(node.kind()) && !is_last,
        Part::WrongDeclarator { is_head, how } => is_declarator_wrong(is_head, how, node),
    }
}

fn has_part(part: Part, nodes: &[Option<Node>]) -> bool
    ensures { result ≡ has_part (part_test part) (row nodes.now) }
{
    let mut rest = nodes;
    while let [first, others @ ..] = rest {
        if let Some(node) = first {
            if is_part(part, node, others.is_empty()) {
                return true;
            }
        }
        rest = others;
    }
    false
}

// The places of such nodes. Most rows have none, and then nothing is counted.
fn places(
    alloc: Global,
    part: Part,
    place: u32,
    nodes: &[Option<Node>],
) -> Result<Vec<u32>, AllocError>
    requires fits { place + node_count (row nodes.now) < 2 ^ 32 }
    ensures places { IfOk result (λ v. v.items ≡ places (part_test part) place (row nodes.now)) }
{
    let mut found = Vec::new(alloc);
    if !has_part(part, nodes) {
        return Ok(found);
    }
    let mut next = place;
    let mut rest = nodes;
    while let [first, others @ ..] = rest {
        if let Some(node) = first {
            if is_part(part, node, others.is_empty()) {
                found.push(next)?;
            }
            next = behind_node(next, node);
        }
        rest = others;
    }
    Ok(found)
}

/// The places of the cases that are defaults, where the first case stands at `place`.
pub fn defaults(alloc: Global, place: u32, cases: &[Option<Node>]) -> Result<Vec<u32>, AllocError>
    requires fits { place + node_count (row cases.now) < 2 ^ 32 }
    ensures places { IfOk result (λ v. v.items ≡ places_of is_default place (row cases.now)) }
{
    places(alloc, Part::Default, place, cases)
}

/// The places of the members that are constructors.
pub fn constructors(
    alloc: Global,
    place: u32,
    members: &[Option<Node>],
) -> Result<Vec<u32>, AllocError>
    requires fits { place + node_count (row members.now) < 2 ^ 32 }
    ensures places { IfOk result (λ v. v.items ≡ places_of is_constructor place (row members.now)) }
{
    places(alloc, Part::Constructor, place, members)
}

/// The places of the declarators that lack an initialiser or have one where none may be.
pub fn wrong_declarators(
    alloc: Global,
    is_head: bool,
    how: VariableKind,
    place: u32,
    declarators: &[Option<Node>],
) -> Result<Vec<u32>, AllocError>
    requires fits { place + node_count (row declarators.now) < 2 ^ 32 }
    ensures places { IfOk result (λ v. v.items ≡ places_of (is_declarator_wrong is_head how) place (row declarators.now)) }
{
    places(
        alloc,
        Part::WrongDeclarator { is_head, how },
        place,
        declarators,
    )
}

/// The places of the rests that aren't last in their row.
pub fn early_rests(
    alloc: Global,
    place: u32,
    nodes: &[Option<Node>],
) -> Result<Vec<u32>, AllocError>
    requires fits { place + node_count (row nodes.now) < 2 ^ 32 }
    ensures places { IfOk result (λ v. v.items ≡ early_rests place (row nodes.now)) }
{
    places(alloc, Part::EarlyRest, place, nodes)
}
