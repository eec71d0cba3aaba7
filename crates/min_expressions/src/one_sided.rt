// What is left of a conditional of which nobody takes the value, and of which one branch alone acts.
ghost use Rattle.std.specs.Prelude.{◌≡◌, [], ◌∷◌, Some, true};
ghost use Rattle.js_syntax.specs.Node.{row};
ghost use Rattle.scope_counts.specs.Counts.{ids};
ghost use Rattle.min_context.specs.Edited.{evals, Leaves, Edited};
ghost use Rattle.steps.specs.Allowed.OneSidedChoice.{one_sided};
ghost use Rattle.rules.specs.Expressions.Lists.{new_note};
ghost use Rattle.rules.specs.Expressions.Uses.{spot_of};
ghost use Rattle.min_expressions.specs.Kept.{parts_of};
ghost use Rattle.min_expressions.specs.OneSided.{operator_between, operator_of_parts, operator_for, stays_one_sided, leaving_at};

use crate::parts::{Parts, parts_of};
use crate::unused::acts;
use crate::uses::is_unused_from;
use js_syntax::{LogicalOperator, NodeKind};
use js_tree::Node;
use min_context::MinifierTraverseCtx;

// ---- by which operator

fn operator_between(consequent: &Node, alternate: &Node) -> Option<LogicalOperator>
    ensures { result ≡ operator_between consequent.now alternate.now }
{
    if acts(consequent) {
        if acts(alternate) {
            None
        } else {
            Some(LogicalOperator::And)
        }
    } else if acts(alternate) {
        Some(LogicalOperator::Or)
    } else {
        None
    }
}

fn operator_of_parts(children: &[Option<Node>]) -> Option<LogicalOperator>
    ensures { result ≡ operator_of_parts (parts_of (row children.now)) }
{
    match parts_of(children) {
        Parts::Triple(_, consequent, alternate) => operator_between(consequent, alternate),
        Parts::Pair(_, _) => None,
        Parts::Others => None,
    }
}

fn operator_for(node: &Node) -> Option<LogicalOperator>
    ensures { result ≡ operator_for node.now.kind node.now.below }
{
    match node.kind() {
        NodeKind::ConditionalExpression => operator_of_parts(node.children()),
        _ => None,
    }
}

// The same where nobody takes the value of what stands where the walk is.
pub(crate) fn stays_one_sided(node: &Node, ctx: &MinifierTraverseCtx) -> Option<LogicalOperator>
    ensures { result ≡ stays_one_sided (spot_of ctx.now.place) node.now.kind node.now.below }
{
    if is_unused_from(ctx.ancestors_above()) {
        operator_for(node)
    } else {
        None
    }
}

// ---- and the change

fn leaving_at(operator: LogicalOperator) -> usize
    ensures { result ≡ leaving_at operator }
{
    match operator {
        LogicalOperator::And => 2,
        LogicalOperator::Or => 1,
        LogicalOperator::Coalesce => 1,
    }
}

pub(crate) fn mark_branch(branch: &Option<Node>, ctx: &mut MinifierTraverseCtx)
    ensures left { Leaves ctx.old (λ r. ids r (row (branch.now ∷ []))) (evals (row (branch.now ∷ []))) ctx.new }
{
    if let Some(node) = branch {
        ctx.mark_node(node);
    }
}

// The condition and the branch that acts take the place of the whole, in the same row. The context is told of the other branch.
pub(crate) fn keep_one_side(
    node: &mut Node,
    operator: LogicalOperator,
    ctx: &mut MinifierTraverseCtx,
)
    requires one { operator_for node.old.kind node.old.below ≡ Some operator }
    ensures kept { one_sided (new_note node.old.note) node.old.kind node.old.below ≡ Some node.new }
    ensures edited { Edited ctx.old node.old node.new true ctx.new }
{
    let span = node.span();
    let mut children = node.replace_children(Vec::new(ctx.alloc()));
    let branch = children.remove(leaving_at(operator));
    mark_branch(&branch, ctx);
    let sides = Node::new(NodeKind::LogicalExpression(operator), span, children);
    ctx.replace_expression(node, sides);
}
