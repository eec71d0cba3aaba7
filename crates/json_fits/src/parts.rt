// What is asked of a single node, and of the key above it.
ghost use Rattle.std.specs.Prelude.{◌≡◌, [], ◌∷◌};
ghost use Rattle.js_syntax.specs.Node.{row};
ghost use Rattle.js_syntax.specs.Hint as hints;
ghost use Rattle.json_shape.specs.Shape.{first_of, is_directive_kind};
ghost use Rattle.json_table.specs.View.{class_view, row_view, list_view, sort_view};
ghost use Rattle.json_fits.specs.Fitting as fitting;
ghost use Rattle.json_fits.specs.Fitting.{key_of, place_of};

use crate::rows::number;
use js_syntax::{Key, NodeKind};
use js_tree::Node;
use json_scan::takes_literal;
use json_table::{List, Row, Sort, Wanted, row_of};

// Where the table has several rows of a type that may stand at a place, the first of them.
fn first_of(row: Row) -> Row
    ensures { row_view result ≡ first_of (row_view row) }
{
    match row {
        Row::RegExp => Row::Literal,
        Row::InExpression => Row::BinaryExpression,
        Row::CompoundAssignment => Row::AssignmentExpression,
        Row::MethodProperty => Row::Property,
        Row::ImportMeta => Row::NewTarget,
        Row::ExportDeclaration | Row::ExportFrom => Row::ExportList,
        _ => row,
    }
}

/// Whether a node of this row may stand where such a class is wanted.
pub(crate) fn may_stand(wanted: Wanted, row: Row) -> bool
    ensures { result ≡ fitting.may_stand (class_view wanted) (row_view row) }
{
    match row_of(wanted, row.node_type()) {
        None => false,
        Some(stands) => number(stands) == number(first_of(row)),
    }
}

/// Whether a node is a list of this sort.
pub(crate) fn is_list(kind: &NodeKind, list: List) -> bool
    ensures { result ≡ fitting.same_list kind.now (list_view list) }
{
    match list {
        List::Statements => matches!(kind, NodeKind::Statements),
        List::Cases => matches!(kind, NodeKind::Cases),
        List::Declarators => matches!(kind, NodeKind::Declarators),
        List::Parameters => matches!(kind, NodeKind::Parameters),
        List::Members => matches!(kind, NodeKind::Members),
        List::Elements => matches!(kind, NodeKind::Elements),
        List::Properties => matches!(kind, NodeKind::Properties),
        List::Expressions => matches!(kind, NodeKind::Expressions),
        List::Arguments => matches!(kind, NodeKind::Arguments),
        List::Quasis => matches!(kind, NodeKind::Quasis),
        List::Specifiers => matches!(kind, NodeKind::Specifiers),
    }
}

pub(crate) fn is_hole(kind: &NodeKind) -> bool
    ensures { result ≡ fitting.is_hole kind.now }
{
    matches!(kind, NodeKind::Hole)
}

pub(crate) fn is_directive(kind: &NodeKind) -> bool
    ensures { result ≡ is_directive_kind kind.now }
{
    matches!(kind, NodeKind::Directive(_))
}

fn is_private(child: &Option<Node>) -> bool
    ensures { result ≡ hints.has hints.is_private (row (child.now ∷ [])) }
{
    match child {
        Some(node) => matches!(node.kind(), NodeKind::PrivateName(_)),
        None => false,
    }
}

/// Whether a private name stands in a row.
pub(crate) fn has_private(nodes: &[Option<Node>]) -> bool
    ensures { result ≡ hints.has hints.is_private (row nodes.now) }
{
    for node in nodes {
        if is_private(node) {
            return true;
        }
    }
    false
}

fn is_below(key: &Key) -> bool
    ensures { result ≡ fitting.is_below key.now }
{
    matches!(key, Key::Below)
}

fn is_name(key: &Key) -> bool
    ensures { result ≡ fitting.is_name key.now }
{
    matches!(key, Key::Name(_))
}

/// Whether the key of a kind that has one is a node below it.
pub(crate) fn has_key_below(kind: &NodeKind) -> bool
    ensures { result ≡ fitting.is_below (key_of kind.now) }
{
    match kind {
        NodeKind::MethodDefinition {
            kind: _,
            is_static: _,
            key,
        } => is_below(key),
        NodeKind::PropertyDefinition { is_static: _, key } => is_below(key),
        NodeKind::Property {
            kind: _,
            is_method: _,
            key,
        } => is_below(key),
        NodeKind::MemberExpression { key, optional: _ } => is_below(key),
        NodeKind::BindingProperty(key) => is_below(key),
        NodeKind::TargetProperty(key) => is_below(key),
        _ => true,
    }
}

fn has_key_named(kind: &NodeKind) -> bool
    ensures { result ≡ fitting.is_name (key_of kind.now) }
{
    match kind {
        NodeKind::MethodDefinition {
            kind: _,
            is_static: _,
            key,
        } => is_name(key),
        NodeKind::PropertyDefinition { is_static: _, key } => is_name(key),
        NodeKind::Property {
            kind: _,
            is_method: _,
            key,
        } => is_name(key),
        NodeKind::MemberExpression { key, optional: _ } => is_name(key),
        NodeKind::BindingProperty(key) => is_name(key),
        NodeKind::TargetProperty(key) => is_name(key),
        _ => false,
    }
}

/// Whether a field holds a node, or a place where one may be absent.
pub(crate) fn holds_node(sort: Sort) -> bool
    ensures { result ≡ fitting.holds_node (sort_view sort) }
{
    match sort {
        Sort::Keeps(_) | Sort::Checks(_) => false,
        _ => true,
    }
}

/// Whether no node may stand where such a field is, below a node of this kind.
pub(crate) fn may_lack(kind: &NodeKind, private: bool, sort: Sort) -> bool
    ensures { result ≡ fitting.may_lack (place_of private (key_of kind.now) (sort_view sort)) }
{
    match sort {
        Sort::Maybe(_) => true,
        Sort::Key(keys) => { !has_key_below(kind) && (has_key_named(kind) || takes_literal(keys)) }
        _ => false,
    }
}
