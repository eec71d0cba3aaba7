// What becomes of an `if` whose branches are empty.
ghost use Rattle.std.specs.Prelude.{◌≡◌, Some, true};
ghost use Rattle.min_context.specs.Edited.{Edited};
ghost use Rattle.min_traverse.specs.Lawful.{Does};
ghost use Rattle.js_syntax.specs.Node.{row};
ghost use Rattle.steps.specs.Allowed.Arranged.{is_nothing};
ghost use Rattle.steps.specs.Allowed.EmptyIf.{begins_no_statement};
ghost use Rattle.rules.specs.Expressions.EmptyIfs.{test_left, fold_empty_if};
ghost use Rattle.min_statements.specs.Ifs.{told_branches};
ghost use Rattle.min_statements.specs.Tests.{is_empty, test_alone, keeps_test};

use crate::ifs::{Branches, branches_of};
use js_syntax::NodeKind;
use js_tree::Node;
use min_context::MinifierTraverseCtx;

// ---- whether it does

pub(crate) fn is_nothing(children: &[Option<Node>]) -> bool
    ensures { result ≡ is_nothing (row children.now) }
{
    match children {
        [] => true,
        [_, ..] => false,
    }
}

pub(crate) fn is_empty(node: &Node) -> bool
    ensures { result ≡ is_empty node.now }
{
    match node.kind() {
        NodeKind::EmptyStatement => is_nothing(node.children()),
        _ => false,
    }
}

// A function or a class, with which no statement of an expression begins.
fn begins_no_statement(node: &Node) -> bool
    ensures { result ≡ begins_no_statement node.now.kind }
{
    matches!(node.kind(), NodeKind::Function { .. } | NodeKind::Class(_))
}

fn test_alone(branches: Branches) -> bool
    ensures { result ≡ test_alone (told_branches branches.entry) }
{
    match branches {
        Branches::Both(test, consequent, alternate) => {
            (is_empty(consequent) && is_empty(alternate)) && !begins_no_statement(test)
        }
        Branches::One(test, consequent) => is_empty(consequent) && !begins_no_statement(test),
        Branches::Last(_, _) => false,
        Branches::Others => false,
    }
}

fn keeps_test(node: &Node) -> bool
    ensures { result ≡ keeps_test node.now.kind node.now.below }
{
    match node.kind() {
        NodeKind::IfStatement => test_alone(branches_of(node.children())),
        _ => false,
    }
}

// ---- and the change

// A statement of the test takes its place, in the same row.
fn keep_test(node: &mut Node, ctx: &mut MinifierTraverseCtx)
    requires empty { keeps_test node.old.kind node.old.below ≡ true }
    ensures kept { test_left node.old.note node.old.kind node.old.below ≡ Some node.new }
    ensures edited { Edited ctx.old node.old node.new true ctx.new }
{
    let span = node.span();
    let mut children = node.replace_children(Vec::new(ctx.alloc()));
    children.truncate(1);
    let statement = Node::new(NodeKind::ExpressionStatement, span, children);
    ctx.replace_statement(node, statement);
}

/// An `if` whose branches are empty becomes a statement of its test. The context is told.
pub(crate) fn fold_empty_if(node: &mut Node, ctx: &mut MinifierTraverseCtx) -> bool
    ensures does { Does fold_empty_if ctx.old node.old result ctx.new node.new }
{
    if !keeps_test(node) {
        return false;
    }
    keep_test(node, ctx);
    true
}
