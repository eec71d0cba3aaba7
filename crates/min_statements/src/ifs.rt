// What becomes of an `if` of which the test is known, and of a `try` around nothing.
ghost use Rattle.std.specs.Prelude.{◌≡◌, IfOk, OnErr};
ghost use Rattle.js_syntax.specs.Node.{row};
ghost use Rattle.min_traverse.specs.Lawful.{either, Does};
ghost use Rattle.steps.specs.Allowed.Branches.{is_branch};
ghost use Rattle.steps.specs.Allowed.KnownConditional.{truth_known};
ghost use Rattle.rules.specs.Expressions.Ifs.{fold_if};
ghost use Rattle.rules.specs.Expressions.EmptyIfs.{fold_empty_if};
ghost use Rattle.rules.specs.Expressions.EmptyAlternates.{fold_empty_alternate};
ghost use Rattle.rules.specs.Expressions.Untaken.{rid_if};
ghost use Rattle.rules.specs.Expressions.LeftNames.{at_if_end};
ghost use Rattle.min_statements.specs.Ifs.{branches_of, told_branches, index_if, one_of_two, one_or_none, branch_of, try_of, branch_at};

use crate::blocks::idles;
use crate::emptied::put_empty;
use crate::empty_alternates::fold_empty_alternate;
use crate::empty_ifs::fold_empty_if;
use crate::inside::declares_no_name;
use crate::left_names::leave_names;
use crate::tries::{are_blocks, has_no_loop, is_block};
use crate::untaken::{drop_branch, rid_branch, untaken_at};
use js_syntax::NodeKind;
use js_tree::Node;
use min_context::MinifierTraverseCtx;
use min_expressions::{keep_child, truth_known};
use std::alloc::{AllocError, Global};

// A statement that means the same wherever one may stand.
fn is_branch(kind: &NodeKind) -> bool
    ensures { result ≡ is_branch kind.now }
{
    match kind {
        NodeKind::EmptyStatement
        | NodeKind::ExpressionStatement
        | NodeKind::BlockStatement
        | NodeKind::IfStatement
        | NodeKind::BreakStatement(_)
        | NodeKind::ContinueStatement(_)
        | NodeKind::ReturnStatement
        | NodeKind::ThrowStatement
        | NodeKind::SwitchStatement
        | NodeKind::TryStatement => true,
        _ => false,
    }
}

// ---- the branches

/// The test of an `if`, and its branches, or its one branch; the block of a `try`, a handler and a finalizer, or one of them; or other
/// parts.
pub(crate) enum Branches<'a> {
    Both(&'a Node, &'a Node, &'a Node),
    One(&'a Node, &'a Node),
    Last(&'a Node, &'a Node),
    Others,
}

pub(crate) fn branches_of<'a>(children: &'a [Option<Node>]) -> Branches<'a>
    ensures { told_branches result ≡ branches_of (row children.now) }
{
    match children {
        [Some(test), Some(consequent), Some(alternate)] => {
            Branches::Both(test, consequent, alternate)
        }
        [Some(test), Some(consequent), None] => Branches::One(test, consequent),
        [Some(block), None, Some(finalizer)] => Branches::Last(block, finalizer),
        [] => Branches::Others,
        [None, ..] => Branches::Others,
        [Some(_)] => Branches::Others,
        [Some(_), None] => Branches::Others,
        [Some(_), None, None, ..] => Branches::Others,
        [Some(_), None, Some(_), None, ..] => Branches::Others,
        [Some(_), None, Some(_), Some(_), ..] => Branches::Others,
        [Some(_), Some(_)] => Branches::Others,
        [Some(_), Some(_), None, None, ..] => Branches::Others,
        [Some(_), Some(_), None, Some(_), ..] => Branches::Others,
        [Some(_), Some(_), Some(_), None, ..] => Branches::Others,
        [Some(_), Some(_), Some(_), Some(_), ..] => Branches::Others,
    }
}

fn index_if(holds: bool, at: Option<usize>) -> Option<Option<usize>>
    ensures { result ≡ index_if holds at }
{
    if holds { Some(at) } else { None }
}

fn one_of_two(
    test: &Node,
    consequent: &Node,
    alternate: &Node,
    alloc: Global,
) -> Option<Option<usize>>
    ensures { result ≡ one_of_two (truth_known test.now.kind test.now.note test.now.below) consequent.now alternate.now }
{
    match truth_known(test, alloc) {
        Some(true) => index_if(
            is_branch(consequent.kind()) && declares_no_name(alternate),
            Some(1),
        ),
        Some(false) => index_if(
            is_branch(alternate.kind()) && declares_no_name(consequent),
            Some(2),
        ),
        None => None,
    }
}

fn one_or_none(test: &Node, consequent: &Node, alloc: Global) -> Option<Option<usize>>
    ensures { result ≡ one_or_none (truth_known test.now.kind test.now.note test.now.below) consequent.now }
{
    match truth_known(test, alloc) {
        Some(true) => index_if(is_branch(consequent.kind()), Some(1)),
        Some(false) => index_if(declares_no_name(consequent), None),
        None => None,
    }
}

fn branch_of(branches: Branches, alloc: Global) -> Option<Option<usize>>
    ensures { result ≡ branch_of (told_branches branches.entry) }
{
    match branches {
        Branches::Both(test, consequent, alternate) => {
            one_of_two(test, consequent, alternate, alloc)
        }
        Branches::One(test, consequent) => one_or_none(test, consequent, alloc),
        Branches::Last(_, _) => None,
        Branches::Others => None,
    }
}

fn try_of(branches: Branches) -> Option<Option<usize>>
    ensures { result ≡ try_of (told_branches branches.entry) }
{
    match branches {
        Branches::Both(block, handler, finalizer) => index_if(
            are_blocks(block, finalizer)
                && (idles(block.children())
                    && (declares_no_name(handler) && has_no_loop(finalizer.children()))),
            Some(2),
        ),
        Branches::One(block, handler) => index_if(
            is_block(block) && (idles(block.children()) && declares_no_name(handler)),
            Some(0),
        ),
        Branches::Last(block, finalizer) => index_if(
            are_blocks(block, finalizer)
                && (idles(block.children()) && has_no_loop(finalizer.children())),
            Some(2),
        ),
        Branches::Others => None,
    }
}

// The child that takes the place of an `if` or a `try`, by its index, or that there is none.
fn branch_at(node: &Node, alloc: Global) -> Option<Option<usize>>
    ensures { result ≡ branch_at node.now.kind node.now.below }
{
    match node.kind() {
        NodeKind::IfStatement => branch_of(branches_of(node.children()), alloc),
        NodeKind::TryStatement => try_of(branches_of(node.children())),
        _ => None,
    }
}

// Of a branch that isn't taken and has to stay, what declares no name around it leaves.
fn thin_branch(node: &mut Node, ctx: &mut MinifierTraverseCtx) -> bool
    ensures does { Does rid_if ctx.old node.old result ctx.new node.new }
{
    match untaken_at(node, ctx.alloc()) {
        Some(at) => {
            ctx.notice_change();
            drop_branch(node.children(), at, ctx);
            rid_branch(ctx.alloc(), node, at);
            true
        }
        None => false,
    }
}

// All but that names are left.
fn thin_if(node: &mut Node, ctx: &mut MinifierTraverseCtx) -> bool
    ensures does { Does (either (either (either fold_if fold_empty_if) fold_empty_alternate) rid_if) ctx.old node.old result ctx.new node.new }
{
    match branch_at(node, ctx.alloc()) {
        Some(Some(at)) => {
            keep_child(node, at, ctx);
            true
        }
        Some(None) => {
            put_empty(node, ctx);
            true
        }
        None => {
            if fold_empty_if(node, ctx) {
                true
            } else if fold_empty_alternate(node, ctx) {
                true
            } else {
                thin_branch(node, ctx)
            }
        }
    }
}

/// An `if` on a test that is known becomes the branch that runs, if that means the same wherever it stands and the other one declares no
/// name around it; and empty, if there is no branch to run. A `try` around nothing becomes its finalizer, or its block. An `if` whose
/// branches are empty becomes a statement of its test. One with an empty alternate loses that, where none of an `if` around may follow.
/// Else, what declares no name around it leaves the branch that isn't taken, or of what declares names by `var` alone a declaration of these is
/// left. The context is told. It fails only for want of memory; then all is as it was.
pub fn try_fold_if(node: &mut Node, ctx: &mut MinifierTraverseCtx) -> Result<bool, AllocError>
    ensures does { IfOk result (λ answer. Does at_if_end ctx.old node.old answer ctx.new node.new) }
    ensures refused { OnErr result ((node.new ≡ node.old) × (ctx.new ≡ ctx.old)) }
{
    if thin_if(node, ctx) {
        return Ok(true);
    }
    leave_names(node, ctx)
}
