// Imports of one module come together.
ghost use Rattle.std.specs.Prelude.{◌≡◌, ◌<◌, ◌≤◌, [], ◌∷◌, Some, false, ◌||◌, length, IfOk, IfSome, OnOk, OnErr, IsOk, if◌then◌else◌};
ghost use Rattle.std.specs.Bool.{OnFalse};
ghost use Rattle.std.specs.Option.{option_map};
ghost use Rattle.std.specs.Str.{bytes_eq};
ghost use Rattle.js_syntax.specs.Node.{nothing, row, forest_of};
ghost use Rattle.rules.specs.Imports.Merged as rules;
ghost use Rattle.min_imports.specs.Merging.{has_import, imported_from, names_of, list_takes, TreeGoes, ItemGoes, is_missing, or_changed, overlaid, planned, ends, there, receiver, with_more, Plan};

use crate::names::{may_merge, put_names};
use crate::repeated::keep_staying;
use js_syntax::NodeKind;
use js_tree::{Node, put_child, take};
use js_tree_copy::clone_node;
use std::alloc::{AllocError, Global};
use std::collections::BTreeSet;

// ---- imports, and their names

pub(crate) fn imported_from(kind: &NodeKind) -> Option<&str>
    ensures { option_map (λ s. s.now) result ≡ imported_from kind.now }
{
    match kind {
        NodeKind::ImportDeclaration(source) => Some(source.as_str()),
        _ => None,
    }
}

fn is_import_item(item: &Option<Node>) -> bool
    ensures { result ≡ has_import (row (item.now ∷ [])) }
{
    match item {
        Some(node) => matches!(node.kind(), NodeKind::ImportDeclaration(_)),
        None => false,
    }
}

fn has_import(items: &[Option<Node>]) -> bool
    ensures { result ≡ has_import (row items.now) }
{
    for item in items {
        if is_import_item(item) {
            return true;
        }
    }
    false
}

fn names_in(list: &Node) -> Option<&[Option<Node>]>
    ensures { option_map (λ s. row s.now) result ≡ names_of (forest_of list.now) }
{
    match list.kind() {
        NodeKind::Specifiers => Some(list.children()),
        _ => None,
    }
}

pub(crate) fn names_of(children: &[Option<Node>]) -> Option<&[Option<Node>]>
    ensures { option_map (λ s. row s.now) result ≡ names_of (row children.now) }
{
    match children {
        [Some(list)] => names_in(list),
        [Some(_), _, ..] => None,
        [None, ..] => None,
        [] => None,
    }
}

// ---- which import takes them

fn list_takes(later: &[Option<Node>], children: &[Option<Node>]) -> bool
    ensures { result ≡ list_takes (row later.now) (row children.now) }
{
    match names_of(children) {
        Some(names) => may_merge(names, later),
        None => false,
    }
}

fn is_same(one: &str, other: &str) -> bool
    ensures { result ≡ bytes_eq one.now other.now }
{
    one == other
}

fn takes(source: &str, later: &[Option<Node>], node: &Node) -> bool
    ensures { result ≡ rules.takes source.now (row later.now) node.now.kind node.now.below }
{
    match imported_from(node.kind()) {
        Some(other) => is_same(other, source) && list_takes(later, node.children()),
        None => false,
    }
}

// An item as it will be.
fn as_changed<'a>(item: &'a Option<Node>, changed: &'a Option<Node>) -> &'a Option<Node>
    ensures { result.now ≡ or_changed item.now changed.now }
{
    match changed {
        Some(_) => changed,
        None => item,
    }
}

// The search ends at an item that stays and takes them, or is missing.
fn ends(source: &str, later: &[Option<Node>], stays: bool, item: &Option<Node>) -> bool
    ensures { result ≡ ends source.now (row later.now) stays item.now }
{
    if !stays {
        return false;
    }
    match item {
        Some(node) => takes(source, later, node),
        None => true,
    }
}

fn there(at: usize, item: &Option<Node>) -> Option<usize>
    ensures { result ≡ there at item.now }
{
    match item {
        Some(_) => Some(at),
        None => None,
    }
}

fn receiver(
    source: &str,
    later: &[Option<Node>],
    items: &[Option<Node>],
    staying: &[bool],
    changed: &[Option<Node>],
) -> Option<usize>
    requires even { length changed.now ≡ length staying.now }
    requires within { length staying.now ≤ length items.now }
    ensures index { result ≡ receiver source.now (row later.now) staying.now (overlaid items.now changed.now) }
    ensures within { IfSome result (λ at. at < length staying.now) }
{
    let mut at = 0;
    while at < staying.len() {
        let item = as_changed(&items[at], &changed[at]);
        if ends(source, later, staying[at], item) {
            return there(at, item);
        }
        at += 1;
    }
    None
}

// ---- which then has them

fn take_names_in(alloc: Global, list: &mut Node, later: &[Option<Node>]) -> Result<(), AllocError>
    ensures { OnOk result (forest_of list.new ≡ rules.with_names (row later.now) (forest_of list.old)) }
{
    if let NodeKind::Specifiers = list.kind() {
        let mut names = list.replace_children(Vec::new(alloc));
        put_names(alloc, &mut names, later)?;
        list.replace_children(names);
    }
    Ok(())
}

fn take_names_below(
    alloc: Global,
    child: &mut Option<Node>,
    later: &[Option<Node>],
) -> Result<(), AllocError>
    ensures { OnOk result (row (child.new ∷ []) ≡ rules.with_names (row later.now) (row (child.old ∷ []))) }
{
    if let Some(list) = child {
        take_names_in(alloc, list, later)?;
    }
    Ok(())
}

fn take_names_of(
    alloc: Global,
    children: &mut [Option<Node>],
    later: &[Option<Node>],
) -> Result<(), AllocError>
    ensures { OnOk result (row children.new ≡ rules.with_names (row later.now) (row children.old)) }
{
    if children.len() == 1 {
        take_names_below(alloc, &mut children[0], later)?;
    }
    Ok(())
}

fn take_names(alloc: Global, node: &mut Node, later: &[Option<Node>]) -> Result<(), AllocError>
    ensures { OnOk result (node.new ≡ record node.old { below = rules.with_names (row later.now) node.old.below }) }
{
    let mut children = node.replace_children(Vec::new(alloc));
    take_names_of(alloc, children.as_mut_slice(), later)?;
    node.replace_children(children);
    Ok(())
}

// A copy of an item that changes for the first time.
fn copy_item(
    alloc: Global,
    item: &Option<Node>,
    changed: &mut Option<Node>,
) -> Result<(), AllocError>
    ensures { OnOk result (changed.new ≡ or_changed item.now changed.old) }
{
    if let Some(_) = changed {
        return Ok(());
    }
    if let Some(node) = item {
        put_child(changed, clone_node(alloc, node)?);
    }
    Ok(())
}

fn give_names(
    alloc: Global,
    item: &Option<Node>,
    changed: &mut Option<Node>,
    later: &[Option<Node>],
) -> Result<(), AllocError>
    ensures { OnOk result (changed.new ≡ with_more (row later.now) (or_changed item.now changed.old)) }
{
    copy_item(alloc, item, changed)?;
    if let Some(node) = changed {
        take_names(alloc, node, later)?;
    }
    Ok(())
}

// ---- which imports go, and what the others become

// Whether the names of an import go into one before it; that one has them then.
fn go_in(
    alloc: Global,
    source: &str,
    names: &[Option<Node>],
    items: &[Option<Node>],
    staying: &[bool],
    changed: &mut Vec<Option<Node>>,
) -> Result<bool, AllocError>
    requires even { length changed.old.items ≡ length staying.now }
    requires within { length staying.now ≤ length items.now }
    ensures goes { IfOk result (λ b. b ≡ rules.is_taken source.now (row names.now) (planned items.now staying.now changed.old.items)) }
    ensures left { IfOk result (λ b. planned items.now staying.now changed.new.items ≡ if b then rules.taken source.now (row names.now) (planned items.now staying.now changed.old.items) else planned items.now staying.now changed.old.items) }
    ensures even { OnOk result (length changed.new.items ≡ length changed.old.items) }
{
    let Some(at) = receiver(source, names, items, staying, changed.as_slice()) else {
        return Ok(false);
    };
    let slot = &mut changed[at];
    give_names(alloc, &items[at], slot, names)?;
    Ok(true)
}

// An import of a module that none before it asks for goes into none.
fn import_goes<'a>(
    alloc: Global,
    sources: &mut BTreeSet<&'a str>,
    items: &[Option<Node>],
    staying: &[bool],
    changed: &mut Vec<Option<Node>>,
    node: &'a Node,
    source: &'a str,
) -> Result<bool, AllocError>
    requires even { length changed.old.items ≡ length staying.now }
    requires within { length staying.now ≤ length items.now }
    requires source { imported_from node.now.kind ≡ Some source.now }
    ensures goes { IfOk result (λ b. TreeGoes sources.old (planned items.now staying.now changed.old.items) node.now b sources.new (planned items.now staying.now changed.new.items)) }
    ensures even { OnOk result (length changed.new.items ≡ length changed.old.items) }
{
    let Some(names) = names_of(node.children()) else {
        return Ok(false);
    };
    let is_new = sources.insert(source)?;
    if is_new {
        return Ok(false);
    }
    let is_gone = go_in(alloc, source, names, items, staying, changed)?;
    Ok(is_gone)
}

fn goes<'a>(
    alloc: Global,
    sources: &mut BTreeSet<&'a str>,
    items: &[Option<Node>],
    staying: &[bool],
    changed: &mut Vec<Option<Node>>,
    node: &'a Node,
) -> Result<bool, AllocError>
    requires even { length changed.old.items ≡ length staying.now }
    requires within { length staying.now ≤ length items.now }
    ensures goes { IfOk result (λ b. TreeGoes sources.old (planned items.now staying.now changed.old.items) node.now b sources.new (planned items.now staying.now changed.new.items)) }
    ensures even { OnOk result (length changed.new.items ≡ length changed.old.items) }
{
    let Some(source) = imported_from(node.kind()) else {
        return Ok(false);
    };
    let is_gone = import_goes(alloc, sources, items, staying, changed, node, source)?;
    Ok(is_gone)
}

// Behind an item that is missing none goes.
fn item_goes<'a>(
    alloc: Global,
    sources: &mut BTreeSet<&'a str>,
    ended: bool,
    items: &[Option<Node>],
    staying: &[bool],
    changed: &mut Vec<Option<Node>>,
    item: &'a Option<Node>,
) -> Result<bool, AllocError>
    requires even { length changed.old.items ≡ length staying.now }
    requires within { length staying.now ≤ length items.now }
    ensures goes { IfOk result (λ b. ItemGoes ended sources.old (planned items.now staying.now changed.old.items) item.now b sources.new (planned items.now staying.now changed.new.items)) }
    ensures even { OnOk result (length changed.new.items ≡ length changed.old.items) }
{
    if ended {
        return Ok(false);
    }
    let Some(node) = item else {
        return Ok(false);
    };
    let is_gone = goes(alloc, sources, items, staying, changed, node)?;
    Ok(is_gone)
}

pub(crate) fn is_missing(item: &Option<Node>) -> bool
    ensures { result ≡ is_missing item.now }
{
    match item {
        Some(_) => false,
        None => true,
    }
}

fn ends_at(ended: bool, item: &Option<Node>) -> bool
    ensures { result ≡ (ended || is_missing item.now) }
{
    ended || is_missing(item)
}

fn plan(alloc: Global, items: &[Option<Node>]) -> Result<(Vec<bool>, Vec<Option<Node>>), AllocError>
    ensures { IfOk result (λ p. Plan p.0.items p.1.items (row items.now)) }
{
    let mut sources = BTreeSet::new(alloc);
    let mut staying = Vec::new(alloc);
    let mut changed = Vec::new(alloc);
    let mut ended = false;
    for item in items {
        ended = ends_at(ended, item);
        let is_gone = item_goes(
            alloc,
            &mut sources,
            ended,
            items,
            staying.as_slice(),
            &mut changed,
            item,
        )?;
        staying.push(!is_gone)?;
        changed.push(None)?;
    }
    Ok((staying, changed))
}

// ---- and the list

fn put_changed_one(item: &mut Option<Node>, changed: &mut Option<Node>)
    ensures { item.new ≡ or_changed item.old changed.old }
{
    if let Some(node) = take(changed) {
        put_child(item, node);
    }
}

pub(crate) fn put_changed(items: &mut [Option<Node>], changed: &mut [Option<Node>])
    requires { length changed.old ≡ length items.old }
    ensures { items.new ≡ overlaid items.old changed.old }
{
    let mut at = 0;
    while at < changed.len() {
        put_changed_one(&mut items[at], &mut changed[at]);
        at += 1;
    }
}

fn merge_items(alloc: Global, node: &mut Node, staying: &[bool], changed: &mut [Option<Node>])
    requires { Plan staying.now changed.old node.old.below }
    ensures { node.new ≡ record node.old { below = rules.together nothing node.old.below } }
{
    let mut items = node.replace_children(Vec::new(alloc));
    put_changed(items.as_mut_slice(), changed);
    keep_staying(&mut items, staying);
    node.replace_children(items);
}

/// Lets the imports of a list come together: each goes into the first one before it that asks for its module and can take its names, and
/// it is answered whether there is one. Where there is none, nothing is touched. It fails only for want of memory, and only where the list
/// has an import; then all is as it was.
pub fn merge_imports(alloc: Global, node: &mut Node) -> Result<bool, AllocError>
    ensures goes { IfOk result (λ b. b ≡ rules.one_goes nothing node.old.below) }
    ensures left { OnOk result (node.new ≡ record node.old { below = rules.together nothing node.old.below }) }
    ensures same { IfOk result (λ b. OnFalse b (node.new ≡ node.old)) }
    ensures refused { OnErr result (node.new ≡ node.old) }
    ensures succeeds { has_import node.old.below ≡ false → IsOk result }
{
    if !has_import(node.children()) {
        return Ok(false);
    }
    let (staying, mut changed) = plan(alloc, node.children())?;
    if !staying.contains(&false) {
        return Ok(false);
    }
    merge_items(alloc, node, staying.as_slice(), changed.as_mut_slice());
    Ok(true)
}
