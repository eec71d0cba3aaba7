// Rows of nodes.
ghost use Rattle.std.specs.Prelude.{◌≡◌, ◌≤◌, length};
ghost use Rattle.js_syntax.specs.Node.{row};
ghost use Rattle.form_rules.specs.Rules.{length_of, first_is_super, is_bare_name, are_names, have_plain_parameters, has_handler_or_finalizer};

use form_declared::{behind, is_absent};
use js_tree::{Node, NodeKind};

/// How many of these fields are nodes.
pub(crate) fn length_of(nodes: &[Option<Node>]) -> usize
    ensures length { result ≡ length_of (row nodes.now) }
    ensures few { result ≤ length nodes.now }
{
    let mut length = 0;
    for node in nodes {
        if let Some(_) = node {
            length += 1;
        }
    }
    length
}

pub(crate) fn first_is_super(nodes: &[Option<Node>]) -> bool
    ensures { result ≡ first_is_super (row nodes.now) }
{
    match nodes.first() {
        Some(Some(node)) => match node.kind() {
            NodeKind::Super => true,
            _ => false,
        },
        _ => false,
    }
}

/// Whether the first of these nodes is a name, in parentheses or not.
pub(crate) fn is_bare_name(nodes: &[Option<Node>]) -> bool
    ensures { result ≡ is_bare_name (row nodes.now) }
{
    match nodes.first() {
        Some(Some(node)) => match node.kind() {
            NodeKind::ReferenceName(_) => true,
            NodeKind::ParenthesizedExpression => is_bare_name(node.children()),
            _ => false,
        },
        _ => false,
    }
}

fn are_names(nodes: &[Option<Node>]) -> bool
    ensures { result ≡ are_names (row nodes.now) }
{
    for node in nodes {
        if let Some(node) = node {
            match node.kind() {
                NodeKind::BindingName(_) => {}
                _ => return false,
            }
        }
    }
    true
}

/// Whether the parameters of a function, whose children these are, are plain names.
pub(crate) fn have_plain_parameters(nodes: &[Option<Node>]) -> bool
    ensures { result ≡ have_plain_parameters (row nodes.now) }
{
    for node in nodes {
        if let Some(node) = node {
            if let NodeKind::Parameters = node.kind() {
                return are_names(node.children());
            }
        }
    }
    true
}

/// Whether a `try`, whose children these are, catches or has an end.
pub(crate) fn has_handler_or_finalizer(nodes: &[Option<Node>]) -> bool
    ensures { result ≡ has_handler_or_finalizer (row nodes.now) }
{
    !(is_absent(behind(nodes)) && is_absent(behind(behind(nodes))))
}
