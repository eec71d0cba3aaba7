// Whether trees fit.
ghost use Rattle.std.specs.Prelude.{◌≡◌, ◌↔◌, ◌&&◌, [], ◌∷◌, true, map};
ghost use Rattle.std.specs.Option.{option_map};
ghost use Rattle.js_syntax.specs.Class.{root};
ghost use Rattle.js_syntax.specs.Node.{row, forest_of};
ghost use Rattle.json_shape.specs.Shape.{Fits, these, behind, after_body_item, first_place, key_node};
ghost use Rattle.json_table.specs.View.{class_view, row_view, keys_view, sort_view, field_view};
ghost use Rattle.json_fits.specs.Fitting as fitting;
ghost use Rattle.json_fits.specs.Fitting.{key_of, place_of, places_by, is_planned};
ghost use Rattle.json_fits.specs.Items.{items_view};

use crate::parts::{
    has_key_below, has_private, holds_node, is_directive, is_hole, is_list, may_lack, may_stand,
};
use crate::rows::{first_row, second_row};
use js_syntax::NodeKind;
use js_tree::{Node, Program};
use json_scan::takes_private;
use json_table::{Field, Keys, List, Row, Sort, Wanted};

// The nodes of a list: all of a class, or holes as well, or directives and then nodes of a class.
#[derive(Clone, Copy)]
enum Items {
    All(Wanted),
    OrHoles(Wanted),
    OfBody(Wanted),
}

// What is left of a list behind a node.
fn behind(items: Items, kind: &NodeKind) -> Items
    ensures { items_view result ≡ behind (items_view items) kind.now }
{
    match items {
        Items::OfBody(wanted) => after_body_item(wanted, is_directive(kind)),
        _ => items,
    }
}

fn after_body_item(wanted: Wanted, is_directive: bool) -> Items
    ensures { items_view result ≡ after_body_item (class_view wanted) is_directive }
{
    if is_directive {
        Items::OfBody(wanted)
    } else {
        Items::All(wanted)
    }
}

// Whether no node stands in a row.
fn is_end(nodes: &[Option<Node>]) -> bool
    ensures { result ≡ is_planned (these []) (row nodes.now) }
{
    match nodes {
        [] => true,
        [_, ..] => false,
    }
}

fn is_empty_hole(node: &Node) -> bool
    ensures { result ≡ fitting.is_hole node.now.kind && is_planned (these []) node.now.below }
{
    is_hole(node.kind()) && is_end(node.children())
}

// Whether a node is one of this class.
#[cycle(fits)]
fn is_of(node: &Node, wanted: Wanted) -> bool
    ensures { result ≡ fitting.is_of node.now.kind node.now.below (λ p. is_planned p node.now.below) (class_view wanted) }
{
    is_of_row(node, wanted, first_row(node.kind()))
        || is_of_row(node, wanted, second_row(node.kind()))
}

#[cycle(fits)]
fn is_of_row(node: &Node, wanted: Wanted, row: Option<Row>) -> bool
    ensures { result ≡ fitting.is_of_row node.now.kind node.now.below (λ p. is_planned p node.now.below) (class_view wanted) (option_map row_view row) }
{
    match row {
        None => false,
        Some(row) => {
            let nodes = node.children();
            may_stand(wanted, row)
                && have_places(node.kind(), has_private(nodes), row.fields(), nodes)
        }
    }
}

// Whether the nodes of a row stand where these fields are, below a node of this kind.
#[cycle(fits)]
fn have_places(kind: &NodeKind, private: bool, fields: &[Field], nodes: &[Option<Node>]) -> bool
    ensures { result ≡ is_planned (these (places_by private (key_of kind.now) (map field_view fields.now))) (row nodes.now) }
{
    let mut left = nodes;
    for field in fields {
        if holds_node(field.sort) {
            match left {
                [] => return false,
                [first, others @ ..] => {
                    if !has_place(kind, private, field.sort, first) {
                        return false;
                    }
                    left = others;
                }
            }
        }
    }
    is_end(left)
}

// Whether a node, or none, may be where such a field is.
#[cycle(fits)]
fn has_place(kind: &NodeKind, private: bool, sort: Sort, node: &Option<Node>) -> bool
    ensures { result ≡ fitting.may_be (place_of private (key_of kind.now) (sort_view sort)) (row (node.now ∷ [])) }
{
    match node {
        None => may_lack(kind, private, sort),
        Some(node) => is_at(kind, private, sort, node),
    }
}

#[cycle(fits)]
fn is_at(kind: &NodeKind, private: bool, sort: Sort, node: &Node) -> bool
    ensures { result ≡ fitting.is_at node.now.kind node.now.below (λ p. is_planned p node.now.below) (place_of private (key_of kind.now) (sort_view sort)) }
{
    match sort {
        Sort::Child(wanted) => is_of(node, wanted),
        Sort::Maybe(wanted) => is_of(node, wanted),
        Sort::Key(keys) => has_key_below(kind) && is_key(private, keys, node),
        Sort::Each(list, wanted) => {
            is_list(node.kind(), list) && are_items(Items::All(wanted), node.children())
        }
        Sort::EachOrHole(list, wanted) => {
            is_list(node.kind(), list) && are_items(Items::OrHoles(wanted), node.children())
        }
        Sort::Body(wanted) => {
            is_list(node.kind(), List::Statements)
                && are_items(Items::OfBody(wanted), node.children())
        }
        Sort::Keeps(_) | Sort::Checks(_) => false,
    }
}

// Whether a node is a key, in a row that has a private name or not.
#[cycle(fits)]
fn is_key(private: bool, keys: Keys, node: &Node) -> bool
    ensures { result ≡ fitting.is_at node.now.kind node.now.below (λ p. is_planned p node.now.below) (key_node (keys_view keys) private) }
{
    if private {
        takes_private(keys) && is_of(node, Wanted::PrivateKey)
    } else {
        is_of(node, Wanted::Expression)
    }
}

// Whether the nodes of a row are those of a list.
#[cycle(fits)]
fn are_items(items: Items, nodes: &[Option<Node>]) -> bool
    ensures { result ≡ is_planned (items_view items) (row nodes.now) }
{
    let mut items = items;
    for node in nodes {
        match node {
            None => return false,
            Some(node) => {
                if !is_item(items, node) {
                    return false;
                }
                items = behind(items, node.kind());
            }
        }
    }
    true
}

#[cycle(fits)]
fn is_item(items: Items, node: &Node) -> bool
    ensures { result ≡ fitting.is_at node.now.kind node.now.below (λ p. is_planned p node.now.below) (first_place (items_view items)) }
{
    match items {
        Items::All(wanted) => is_of(node, wanted),
        Items::OrHoles(wanted) => { is_empty_hole(node) || is_of(node, wanted) }
        Items::OfBody(wanted) => {
            is_of(node, Wanted::Prologue) || !is_directive(node.kind()) && is_of(node, wanted)
        }
    }
}

/// Whether a program fits the table of node types: each node stands where its parent's row takes it. So does each program
/// that was read. The recursion goes as deep as the tree.
pub fn fits(program: &Program) -> bool
    ensures fits { (result ≡ true) ↔ Fits root (forest_of program.now) }
{
    is_of(program.root(), Wanted::Root)
}
