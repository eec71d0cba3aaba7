// What does nothing, whatever it holds. The recursion goes as deep as labels stand behind one another.
ghost use Rattle.std.specs.Prelude.{◌≡◌, Some, false};
ghost use Rattle.std.specs.Str.{bytes_eq};
ghost use Rattle.js_syntax.specs.declared.node_kind.NodeKind.TheVariants.{Statements as statements, BlockStatement as block_statement, BreakStatement as break_statement, LabeledStatement as labeled_statement, WhileStatement as while_statement, ForStatement as for_statement, TryStatement as try_statement};
ghost use Rattle.js_syntax.specs.Node.{row};
ghost use Rattle.steps.specs.Allowed.IdleStatement.{finalizer_idles, leaves_at_once, does_nothing};

use crate::blocks::{idles, is_idle};
use js_syntax::{Ident, NodeKind};
use js_tree::Node;
use min_expressions::truth_known;
use std::alloc::Global;

fn while_idles(parts: &[Option<Node>], alloc: Global) -> bool
    ensures { result ≡ does_nothing while_statement (row parts.now) }
{
    match parts {
        [Some(test), ..] => matches!(truth_known(test, alloc), Some(false)),
        [None, ..] => false,
        [] => false,
    }
}

fn for_idles(parts: &[Option<Node>], alloc: Global) -> bool
    ensures { result ≡ does_nothing for_statement (row parts.now) }
{
    match parts {
        [None, others @ ..] => while_idles(others, alloc),
        [Some(_), ..] => false,
        [] => false,
    }
}

fn finalizer_idles(parts: &[Option<Node>]) -> bool
    ensures { result ≡ finalizer_idles (row parts.now) }
{
    match parts {
        [_, others @ ..] => idles(others),
        [] => false,
    }
}

fn try_idles(parts: &[Option<Node>]) -> bool
    ensures { result ≡ does_nothing try_statement (row parts.now) }
{
    match parts {
        [Some(block), others @ ..] => is_idle(block) && finalizer_idles(others),
        [None, ..] => false,
        [] => false,
    }
}

// ---- a jump to a label

fn is_same(one: &Ident, other: &Ident) -> bool
    ensures { result ≡ bytes_eq one.now other.now }
{
    one.as_str() == other.as_str()
}

fn breaks_to(label: &Ident, other: &Option<Ident>) -> bool
    ensures { (below : _) → result ≡ leaves_at_once label.now (break_statement other.now) below }
{
    match other {
        Some(other) => is_same(label, other),
        None => false,
    }
}

#[cycle(leaving)]
fn first_leaves(label: &Ident, parts: &[Option<Node>]) -> bool
    ensures block { result ≡ leaves_at_once label.now block_statement (row parts.now) }
    ensures list { result ≡ leaves_at_once label.now statements (row parts.now) }
{
    match parts {
        [Some(statement), ..] => leaves_at_once(label, statement),
        [None, ..] => false,
        [] => false,
    }
}

#[cycle(leaving)]
fn labeled_leaves(label: &Ident, other: &Ident, parts: &[Option<Node>]) -> bool
    ensures { result ≡ leaves_at_once label.now (labeled_statement other.now) (row parts.now) }
{
    match parts {
        [Some(statement), ..] => !is_same(other, label) && leaves_at_once(label, statement),
        [None, ..] => false,
        [] => false,
    }
}

// Whether a statement only leaves the one with this label. The recursion goes as deep as blocks and labels stand in one another.
#[cycle(leaving)]
fn leaves_at_once(label: &Ident, node: &Node) -> bool
    ensures { result ≡ leaves_at_once label.now node.now.kind node.now.below }
{
    match node.kind() {
        NodeKind::BreakStatement(other) => breaks_to(label, other),
        NodeKind::LabeledStatement(other) => labeled_leaves(label, other, node.children()),
        NodeKind::BlockStatement => first_leaves(label, node.children()),
        NodeKind::Statements => first_leaves(label, node.children()),
        _ => false,
    }
}

// ---- all of them

#[cycle(labels)]
fn labeled_idles(label: &Ident, parts: &[Option<Node>], alloc: Global) -> bool
    ensures { result ≡ does_nothing (labeled_statement label.now) (row parts.now) }
{
    match parts {
        [Some(statement), ..] => {
            does_nothing(statement, alloc) || leaves_at_once(label, statement)
        }
        [None, ..] => false,
        [] => false,
    }
}

/// A loop of which the test is false from the start, a `try` around nothing, such a statement behind labels, or one behind a label that a
/// jump leaves at once.
#[cycle(labels)]
pub(crate) fn does_nothing(node: &Node, alloc: Global) -> bool
    ensures { result ≡ does_nothing node.now.kind node.now.below }
{
    match node.kind() {
        NodeKind::WhileStatement => while_idles(node.children(), alloc),
        NodeKind::ForStatement => for_idles(node.children(), alloc),
        NodeKind::TryStatement => try_idles(node.children()),
        NodeKind::LabeledStatement(label) => labeled_idles(label, node.children(), alloc),
        _ => false,
    }
}
