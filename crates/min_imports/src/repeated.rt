// Imports without names, and requests of modules.
ghost use Rattle.std.specs.Prelude.{◌≡◌, [], ◌∷◌, false, length, IfOk, OnOk, OnErr, IsOk};
ghost use Rattle.std.specs.Bool.{OnFalse};
ghost use Rattle.std.specs.List.{items_where_true};
ghost use Rattle.js_syntax.specs.Node.{row, forest_of};
ghost use Rattle.js_meaning.specs.Module.{requests_of};
ghost use Rattle.steps.specs.Allowed.Arranged.{is_nothing};
ghost use Rattle.rules.specs.Imports.Repeated as rules;
ghost use Rattle.min_imports.specs.Items.{texts, is_nameless, has_nameless, stays, Answers};

use js_syntax::NodeKind;
use js_tree::Node;
use std::alloc::{AllocError, Global};
use std::collections::BTreeSet;

// ---- the module that a statement asks for

fn source_of(kind: &NodeKind) -> Option<&str>
    ensures { texts result ≡ requests_of kind.now }
{
    match kind {
        NodeKind::ImportDeclaration(source) => Some(source.as_str()),
        NodeKind::ExportNamedDeclaration(Some(source)) => Some(source.as_str()),
        NodeKind::ExportAllDeclaration { source, .. } => Some(source.as_str()),
        _ => None,
    }
}

// ---- an import without names

pub(crate) fn is_nothing(children: &[Option<Node>]) -> bool
    ensures { result ≡ is_nothing (row children.now) }
{
    match children {
        [] => true,
        [_, ..] => false,
    }
}

fn is_empty_list(list: &Node) -> bool
    ensures { result ≡ rules.has_no_names (forest_of list.now) }
{
    match list.kind() {
        NodeKind::Specifiers => is_nothing(list.children()),
        _ => false,
    }
}

fn has_no_names(children: &[Option<Node>]) -> bool
    ensures { result ≡ rules.has_no_names (row children.now) }
{
    match children {
        [Some(list)] => is_empty_list(list),
        [Some(_), _, ..] => false,
        [None, ..] => false,
        [] => false,
    }
}

fn is_nameless(node: &Node) -> bool
    ensures { result ≡ is_nameless node.now.kind node.now.below }
{
    match node.kind() {
        NodeKind::ImportDeclaration(_) => has_no_names(node.children()),
        _ => false,
    }
}

fn is_nameless_item(item: &Option<Node>) -> bool
    ensures { result ≡ has_nameless (row (item.now ∷ [])) }
{
    match item {
        Some(node) => is_nameless(node),
        None => false,
    }
}

fn has_nameless(items: &[Option<Node>]) -> bool
    ensures { result ≡ has_nameless (row items.now) }
{
    for item in items {
        if is_nameless_item(item) {
            return true;
        }
    }
    false
}

// ---- which items stay

// Whether a statement stays behind those that ask for these modules; its own module is one of them then.
fn stays<'a>(asked: &mut BTreeSet<&'a str>, node: &'a Node) -> Result<bool, AllocError>
    ensures { IfOk result (λ b. Answers asked.old (forest_of node.now) b asked.new) }
{
    match source_of(node.kind()) {
        Some(source) => {
            let is_new = asked.insert(source)?;
            Ok(is_new || !is_nameless(node))
        }
        None => Ok(true),
    }
}

fn item_stays<'a>(asked: &mut BTreeSet<&'a str>, item: &'a Option<Node>) -> Result<bool, AllocError>
    ensures { IfOk result (λ b. Answers asked.old (row (item.now ∷ [])) b asked.new) }
{
    match item {
        Some(node) => stays(asked, node),
        None => Ok(true),
    }
}

fn which_stay(alloc: Global, items: &[Option<Node>]) -> Result<Vec<bool>, AllocError>
    ensures { IfOk result (λ v. v.items ≡ stays [] (row items.now)) }
{
    let mut asked = BTreeSet::new(alloc);
    let mut staying = Vec::new(alloc);
    for item in items {
        let is_staying = item_stays(&mut asked, item)?;
        staying.push(is_staying)?;
    }
    Ok(staying)
}

// ---- and the list

pub(crate) fn keep_staying(items: &mut Vec<Option<Node>>, staying: &[bool])
    requires { length staying.now ≡ length items.old.items }
    ensures { items.new.items ≡ items_where_true staying.now items.old.items }
{
    let mut kept = 0;
    let mut at = 0;
    while at < staying.len() {
        if staying[at] {
            items.swap(kept, at);
            kept += 1;
        }
        at += 1;
    }
    items.truncate(kept);
}

fn keep_items(alloc: Global, node: &mut Node, staying: &[bool])
    requires { staying.now ≡ stays [] node.old.below }
    ensures { node.new ≡ record node.old { below = rules.each_once [] node.old.below } }
{
    let mut items = node.replace_children(Vec::new(alloc));
    keep_staying(&mut items, staying);
    node.replace_children(items);
}

/// Takes out of a list of statements the imports without names that stand behind another request of their modules, and answers whether
/// there is one. Where there is none, nothing is touched. It fails only for want of memory, and only where the list has an import without
/// names; then all is as it was.
pub fn drop_repeated(alloc: Global, node: &mut Node) -> Result<bool, AllocError>
    ensures repeated { IfOk result (λ b. b ≡ rules.has_repeated [] node.old.below) }
    ensures left { OnOk result (node.new ≡ record node.old { below = rules.each_once [] node.old.below }) }
    ensures same { IfOk result (λ b. OnFalse b (node.new ≡ node.old)) }
    ensures refused { OnErr result (node.new ≡ node.old) }
    ensures succeeds { has_nameless node.old.below ≡ false → IsOk result }
{
    if !has_nameless(node.children()) {
        return Ok(false);
    }
    let staying = which_stay(alloc, node.children())?;
    if !staying.contains(&false) {
        return Ok(false);
    }
    keep_items(alloc, node, staying.as_slice());
    Ok(true)
}
