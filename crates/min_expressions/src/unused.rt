// Which operand of an operation is needed alone, where nobody takes the value.
ghost use Rattle.std.specs.Prelude.{◌≡◌, Some, true, false, is_some};
ghost use Rattle.js_syntax.specs.Node.{row};
ghost use Rattle.min_context.specs.Edited.{Edited};
ghost use Rattle.steps.specs.Allowed.UnusedOperation as operation;
ghost use Rattle.rules.specs.Expressions.Uses.{spot_of};
ghost use Rattle.rules.specs.Expressions.Unused.{left_at};
ghost use Rattle.min_expressions.specs.Kept.{child_at, is_call, parts_of};
ghost use Rattle.min_expressions.specs.Unused as by_parts;
ghost use Rattle.min_expressions.specs.Uses.{told};

use crate::bare::stands_bare;
use crate::kept::keep_child;
use crate::parts::{Parts, parts_of};
use crate::uses::{Use, is_unused_from, operand_of};
use js_effects::{Surroundings, may_have_side_effects, only_combines};
use js_syntax::NodeKind;
use js_tree::Node;
use min_context::MinifierTraverseCtx;

pub(crate) fn acts(node: &Node) -> bool
    ensures { result ≡ operation.acts node.now.kind node.now.note node.now.below }
{
    let anywhere = Surroundings {
        in_with: true,
        in_class: true,
    };
    may_have_side_effects(node, &[], anywhere)
}

// Whether it acts, and may stand there itself, as an operand that is used so.
fn is_needed(used: Use, node: &Node) -> bool
    ensures { result ≡ operation.is_needed (told used) node.now.kind node.now.note node.now.below }
{
    acts(node) && stands_bare(used, false, node)
}

fn index_if(holds: bool, at: usize) -> Option<usize>
    ensures { result ≡ operation.index_if holds at }
{
    if holds { Some(at) } else { None }
}

fn operand_needed(used: Use, children: &[Option<Node>]) -> Option<usize>
    ensures { result ≡ operation.operand_needed (told used) (row children.now) }
{
    match children {
        [Some(operand)] => index_if(is_needed(used, operand), 0),
        [] => None,
        [None, ..] => None,
        [Some(_), None, ..] => None,
        [Some(_), Some(_), ..] => None,
    }
}

// Whether the right side of an operation, which acts, may stand there itself, and the left one doesn't act.
fn right_alone(left: &Node, right: &Node) -> bool
    ensures { result ≡ by_parts.right_alone left.now right.now }
{
    if acts(left) {
        return false;
    }
    stands_bare(Use::Value, false, right)
}

fn side_of(left: &Node, right: &Node) -> Option<usize>
    ensures { result ≡ by_parts.side_of left.now right.now }
{
    if acts(right) {
        index_if(right_alone(left, right), 1)
    } else {
        index_if(is_needed(Use::Value, left), 0)
    }
}

fn side_needed(children: &[Option<Node>]) -> Option<usize>
    ensures { result ≡ by_parts.side_of_parts (parts_of (row children.now)) }
{
    match parts_of(children) {
        Parts::Pair(left, right) => side_of(left, right),
        Parts::Triple(_, _, _) => None,
        Parts::Others => None,
    }
}

fn left_needed(children: &[Option<Node>]) -> Option<usize>
    ensures { result ≡ by_parts.left_of_parts (parts_of (row children.now)) }
{
    match parts_of(children) {
        Parts::Pair(left, right) => index_if(!acts(right) && is_needed(Use::Value, left), 0),
        Parts::Triple(_, _, _) => None,
        Parts::Others => None,
    }
}

fn condition_of(test: &Node, consequent: &Node, alternate: &Node) -> Option<usize>
    ensures { result ≡ by_parts.condition_of test.now consequent.now alternate.now }
{
    index_if(
        !(acts(consequent) || acts(alternate)) && is_needed(Use::Value, test),
        0,
    )
}

fn condition_needed(children: &[Option<Node>]) -> Option<usize>
    ensures { result ≡ by_parts.condition_of_parts (parts_of (row children.now)) }
{
    match parts_of(children) {
        Parts::Triple(test, consequent, alternate) => condition_of(test, consequent, alternate),
        Parts::Pair(_, _) => None,
        Parts::Others => None,
    }
}

// The child that is needed alone.
#[tactic(auto, using(crate::proofs::Needed::by_sides, crate::proofs::Needed::by_left, crate::proofs::Needed::by_condition))]
fn needed_at(node: &Node) -> Option<usize>
    ensures { result ≡ operation.needed_at node.now.kind node.now.below }
{
    match node.kind() {
        NodeKind::UnaryExpression(operator) => {
            if only_combines(node) {
                operand_needed(operand_of(*operator), node.children())
            } else {
                None
            }
        }
        NodeKind::BinaryExpression(_) => {
            if only_combines(node) {
                side_needed(node.children())
            } else {
                None
            }
        }
        NodeKind::LogicalExpression(_) => left_needed(node.children()),
        NodeKind::ConditionalExpression => condition_needed(node.children()),
        _ => None,
    }
}

// The same where nobody takes the value of what stands where the walk is.
pub(crate) fn unused_keeps(node: &Node, ctx: &MinifierTraverseCtx) -> Option<usize>
    ensures { result ≡ by_parts.unused_keeps (spot_of ctx.now.place) node.now.kind node.now.below }
{
    if is_unused_from(ctx.ancestors_above()) {
        needed_at(node)
    } else {
        None
    }
}

// The operand that is needed takes the place of its parent, and again of that.
pub(crate) fn keep_needed(node: &mut Node, at: usize, ctx: &mut MinifierTraverseCtx)
    requires there { is_some (child_at at node.old.below) ≡ true }
    requires call { is_call node.old.kind ≡ false }
    ensures kept { left_at at node.old.below ≡ Some node.new }
    ensures edited { Edited ctx.old node.old node.new true ctx.new }
{
    keep_child(node, at, ctx);
    if let Some(next) = needed_at(node) {
        keep_needed(node, next, ctx);
    }
}
