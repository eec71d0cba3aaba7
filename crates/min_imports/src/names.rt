// Names of imports: which come together, and the names of two imports in one list.
ghost use Rattle.std.specs.Prelude.{◌≡◌, ◌+◌, [], ◌∷◌, ◌++◌, ◌==◌, true, not, ◌&&◌, nat_le, IfOk, OnOk};
ghost use Rattle.js_syntax.specs.Node.{Forest, row, forest_of, joined};
ghost use Rattle.steps.specs.Steps as steps;
ghost use Rattle.steps.specs.Allowed.MergedImports as merging;
ghost use Rattle.steps.specs.Allowed.MergedImports.{names_merged, may_merge};
ghost use Rattle.min_imports.specs.Merging.{is_of, item_is_of, default_named, joined_by, named_one};

use crate::repeated::is_nothing;
use js_syntax::{Ident, ModuleName, NodeKind};
use js_tree::Node;
use js_tree_copy::clone_node;
use std::alloc::{AllocError, Global};

// ---- a list of names

fn binds_import(kind: &NodeKind) -> bool
    ensures { result ≡ steps.binds_import kind.now }
{
    matches!(
        kind,
        NodeKind::ImportSpecifier(_)
            | NodeKind::ImportDefaultSpecifier
            | NodeKind::ImportNamespaceSpecifier
    )
}

fn is_name_alone(name: &Node) -> bool
    ensures { result ≡ merging.is_one_name (forest_of name.now) }
{
    match name.kind() {
        NodeKind::BindingName(_) => is_nothing(name.children()),
        _ => false,
    }
}

fn is_one_name(children: &[Option<Node>]) -> bool
    ensures { result ≡ merging.is_one_name (row children.now) }
{
    match children {
        [Some(name)] => is_name_alone(name),
        [Some(_), _, ..] => false,
        [None, ..] => false,
        [] => false,
    }
}

pub(crate) fn is_name(item: &Option<Node>) -> bool
    ensures { result ≡ merging.are_names (row (item.now ∷ [])) }
{
    match item {
        Some(node) => binds_import(node.kind()) && is_one_name(node.children()),
        None => false,
    }
}

fn are_names(names: &[Option<Node>]) -> bool
    ensures { result ≡ merging.are_names (row names.now) }
{
    for name in names {
        if !is_name(name) {
            return false;
        }
    }
    true
}

// ---- which go together

// A sort of names: that of a module's names, an export under a name, and the default.
#[derive(Clone, Copy)]
enum Sort {
    Namespace,
    Named,
    Default,
}

fn is_of(sort: Sort, kind: &NodeKind) -> bool
    ensures { result ≡ is_of sort kind.now }
{
    match sort {
        Sort::Namespace => matches!(kind, NodeKind::ImportNamespaceSpecifier),
        Sort::Named => matches!(kind, NodeKind::ImportSpecifier(_)),
        Sort::Default => matches!(kind, NodeKind::ImportDefaultSpecifier),
    }
}

fn item_is_of(sort: Sort, item: &Option<Node>) -> bool
    ensures { result ≡ item_is_of sort item.now }
{
    match item {
        Some(node) => is_of(sort, node.kind()),
        None => false,
    }
}

fn how_many(sort: Sort, names: &[Option<Node>]) -> usize
    ensures { result ≡ merging.how_many (is_of sort) (row names.now) }
{
    let mut count = 0;
    for item in names {
        if item_is_of(sort, item) {
            count += 1;
        }
    }
    count
}

// Whether two numbers are none together, or one, or at most one.
fn are_none(here: usize, there: usize) -> bool
    ensures { result ≡ (here + there == 0) }
{
    here == 0 && there == 0
}

fn are_one(here: usize, there: usize) -> bool
    ensures { result ≡ (here + there == 1) }
{
    if here == 0 {
        return there == 1;
    }
    here == 1 && there == 0
}

fn are_few(here: usize, there: usize) -> bool
    ensures { result ≡ nat_le (here + there) 1 }
{
    are_none(here, there) || are_one(here, there)
}

// Of a sort neither list has any.
fn none_of(sort: Sort, names: &[Option<Node>], later: &[Option<Node>]) -> bool
    ensures { result ≡ (merging.how_many (is_of sort) (joined (row names.now) (row later.now)) == 0) }
{
    let here = how_many(sort, names);
    let there = how_many(sort, later);
    are_none(here, there)
}

// Of a sort both lists together have one.
fn one_of(sort: Sort, names: &[Option<Node>], later: &[Option<Node>]) -> bool
    ensures { result ≡ (merging.how_many (is_of sort) (joined (row names.now) (row later.now)) == 1) }
{
    let here = how_many(sort, names);
    let there = how_many(sort, later);
    are_one(here, there)
}

// Of a sort both lists together have at most one.
fn few_of(sort: Sort, names: &[Option<Node>], later: &[Option<Node>]) -> bool
    ensures { result ≡ nat_le (merging.how_many (is_of sort) (joined (row names.now) (row later.now))) 1 }
{
    let here = how_many(sort, names);
    let there = how_many(sort, later);
    are_few(here, there)
}

fn go_together(names: &[Option<Node>], later: &[Option<Node>]) -> bool
    ensures { result ≡ merging.go_together (joined (row names.now) (row later.now)) }
{
    if none_of(Sort::Namespace, names, later) {
        return true;
    }
    let alone = one_of(Sort::Namespace, names, later);
    let unnamed = none_of(Sort::Named, names, later);
    let few = few_of(Sort::Default, names, later);
    alone && (unnamed && few)
}

/// Whether the names of an import may come to those of an earlier one.
pub(crate) fn may_merge(names: &[Option<Node>], later: &[Option<Node>]) -> bool
    ensures { result ≡ may_merge (row names.now) (row later.now) }
{
    are_names(names) && (are_names(later) && go_together(names, later))
}

// ---- the names of both

// `default as a` of `a`, with the place and the symbol of `a`.
fn named_default(alloc: Global, name: &Node) -> Result<Node, AllocError>
    ensures { IfOk result (λ n. n ≡ record name.now { kind = default_named }) }
{
    let copy = clone_node(alloc, name)?;
    let default = Ident::new(String::from_str(alloc, "default")?);
    let kind = NodeKind::ImportSpecifier(ModuleName::Name(default));
    let mut named = Node::new(kind, name.span(), copy.into_children());
    named.set_id(name.id());
    Ok(named)
}

fn named(alloc: Global, name: &Node) -> Result<Node, AllocError>
    ensures { IfOk result (λ n. n ≡ record name.now { kind = merging.as_named name.now.kind }) }
{
    match name.kind() {
        NodeKind::ImportDefaultSpecifier => named_default(alloc, name),
        _ => clone_node(alloc, name),
    }
}

fn named_one(alloc: Global, item: &Option<Node>) -> Result<Option<Node>, AllocError>
    ensures { IfOk result (λ n. n ≡ named_one item.now) }
{
    match item {
        Some(name) => Ok(Some(named(alloc, name)?)),
        None => Ok(None),
    }
}

// A first default goes to the front.
fn put_default(
    alloc: Global,
    names: &mut Vec<Option<Node>>,
    item: &Option<Node>,
) -> Result<(), AllocError>
    requires { item_is_of Sort.Default item.now ≡ true }
    ensures { OnOk result (names.new.items ≡ item.now ∷ names.old.items) }
{
    if let Some(name) = item {
        let copy = clone_node(alloc, name)?;
        names.insert(0, Some(copy))?;
    }
    Ok(())
}

fn put_named(
    alloc: Global,
    names: &mut Vec<Option<Node>>,
    item: &Option<Node>,
) -> Result<(), AllocError>
    ensures { OnOk result (names.new.items ≡ names.old.items ++ named_one item.now ∷ []) }
{
    let copy = named_one(alloc, item)?;
    names.push(copy)?;
    Ok(())
}

// Whether a name is the first default.
fn comes_first(has_default: bool, item: &Option<Node>) -> bool
    ensures { result ≡ (not has_default && item_is_of Sort.Default item.now) }
{
    !has_default && item_is_of(Sort::Default, item)
}

// One more name, behind those of which one may be a default.
fn put_name(
    alloc: Global,
    names: &mut Vec<Option<Node>>,
    has_default: bool,
    item: &Option<Node>,
) -> Result<bool, AllocError>
    ensures { IfOk result (λ b. (rest : Forest) → joined_by b (row names.new.items) rest ≡ joined_by has_default (row names.old.items) (joined (row (item.now ∷ [])) rest)) }
{
    if comes_first(has_default, item) {
        put_default(alloc, names, item)?;
        return Ok(true);
    }
    put_named(alloc, names, item)?;
    Ok(has_default)
}

/// Puts copies of the names of a later import to those of an earlier one. Where memory is short, some are there.
pub(crate) fn put_names(
    alloc: Global,
    names: &mut Vec<Option<Node>>,
    later: &[Option<Node>],
) -> Result<(), AllocError>
    ensures { OnOk result (row names.new.items ≡ names_merged (row names.old.items) (row later.now)) }
{
    let mut has_default = how_many(Sort::Default, names.as_slice()) != 0;
    for item in later {
        has_default = put_name(alloc, names, has_default, item)?;
    }
    Ok(())
}
