// What is asked of one expression.
use crate::rebuilt::append_zero;
use js_syntax::{LiteralValue, NodeKind};
use js_tree::Node;
use min_context::MinifierTraverseCtx;
use min_expressions::PeepholeOptimizations;
use std::alloc::AllocError;

fn text_of(node: &Node) -> Option<&str> {
    match node.kind() {
        NodeKind::Literal(LiteralValue::Text(text)) => Some(text.as_str()),
        _ => None,
    }
}

fn name_of(node: &Node) -> Option<&str> {
    match node.kind() {
        NodeKind::ReferenceName(name) => Some(name.as_str()),
        _ => None,
    }
}

pub(crate) fn word_of(node: &Node) -> Option<&str> {
    match text_of(node) {
        Some(text) => Some(text),
        None => name_of(node),
    }
}

fn append_pair(pair: Option<(&str, &str)>, printed: &mut String) -> Result<(), AllocError> {
    match pair {
        Some((first, second)) => write!(printed, " {first} {second}"),
        None => write!(printed, " none"),
    }
}

fn append_sides(
    words: bool,
    left: &Node,
    right: &Node,
    printed: &mut String,
) -> Result<(), AllocError> {
    let sides = (left, right);
    let pair = if words {
        PeepholeOptimizations::commutative_pair(sides, |node| word_of(node), |node| text_of(node))
    } else {
        PeepholeOptimizations::commutative_pair(sides, |node| text_of(node), |node| name_of(node))
    };
    append_pair(pair, printed)
}

fn append_binary(words: bool, node: &Node, printed: &mut String) -> Result<(), AllocError> {
    match node.children() {
        [Some(left), Some(right)] => append_sides(words, left, right, printed),
        _ => write!(printed, " no pair"),
    }
}

fn append_change(
    node: &Node,
    ctx: &MinifierTraverseCtx,
    printed: &mut String,
) -> Result<(), AllocError> {
    let changes = PeepholeOptimizations::is_expression_that_reference_may_change(node, ctx);
    write!(printed, " {changes}")
}

fn append_target(
    node: &Node,
    ctx: &MinifierTraverseCtx,
    printed: &mut String,
) -> Result<(), AllocError> {
    match node.children().first() {
        Some(Some(target)) => {
            let changes = PeepholeOptimizations::member_object_may_be_mutated(target, ctx);
            write!(printed, " {changes}")
        }
        _ => write!(printed, " no target"),
    }
}

/// What is printed for an expression.
pub(crate) fn append_about(
    question: &str,
    node: &Node,
    ctx: &MinifierTraverseCtx,
    printed: &mut String,
) -> Result<(), AllocError> {
    match question {
        "change" => append_change(node, ctx, printed),
        "target" => append_target(node, ctx, printed),
        "pair" => append_binary(false, node, printed),
        "word" => append_binary(true, node, printed),
        "zero" => append_zero(node, ctx, printed),
        _ => write!(printed, " no question"),
    }
}
