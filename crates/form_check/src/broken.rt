// All rules at a node.
ghost use Rattle.std.specs.Prelude.{◌≡◌, ◌+◌, ◌^◌, ◌<◌, IfOk};
ghost use Rattle.js_syntax.specs.Node.{forest_of};
ghost use Rattle.js_tree.specs.Count.{node_count};
ghost use Rattle.form_rules.specs.Break.{least};
ghost use Rattle.form_rules.specs.Rules.{broken_at};

use crate::local::{rule_3, rule_6, rule_8, rule_10, rule_12};
use crate::module::rule_7;
use crate::name::rule_5;
use crate::parts::rule_11;
use crate::private::rule_4;
use crate::scope::scope_breaks;
use form_context::Context;
use form_rules::{Break, first_of};
use js_tree::{Node, NodeKind};
use std::alloc::{AllocError, Global};

// The first break of a rule, whatever the node is.
fn broken_by_any<'a>(
    alloc: Global,
    context: &Context<'a>,
    place: u32,
    node: &'a Node,
) -> Result<Option<Break>, AllocError>
    requires fits { place + node_count (forest_of node.now) < 2 ^ 32 }
    ensures first { IfOk result (λ b. b ≡ least (broken_at context.now node.now.kind place node.now.below)) }
{
    let clashes = scope_breaks(alloc, context, place, node)?;
    let first = first_of(clashes.lexical, clashes.parameters);
    let first = first_of(first, rule_3(context, place, node));
    let first = first_of(first, rule_4(alloc, context, place, node)?);
    let first = first_of(first, rule_5(context, place, node));
    let first = first_of(first, rule_6(context, place, node));
    let first = first_of(first, rule_7(alloc, context, place, node)?);
    let first = first_of(first, rule_8(context, place, node));
    let first = first_of(first, clashes.variables);
    let first = first_of(first, rule_10(context, place, node));
    let first = first_of(first, rule_11(alloc, context, place, node)?);
    Ok(first_of(first, rule_12(context, place, node)))
}

/// The first break of a rule by a node of this context that stands at this place.
pub fn broken_at<'a>(
    alloc: Global,
    context: &Context<'a>,
    place: u32,
    node: &'a Node,
) -> Result<Option<Break>, AllocError>
    requires fits { place + node_count (forest_of node.now) < 2 ^ 32 }
    ensures first { IfOk result (λ b. b ≡ least (broken_at context.now node.now.kind place node.now.below)) }
{
    // Most nodes are of a kind of which one rule speaks, or none.
    match node.kind() {
        NodeKind::BindingName(_) | NodeKind::ReferenceName(_) | NodeKind::TargetName(_) => {
            Ok(rule_5(context, place, node))
        }
        NodeKind::CallExpression { .. } | NodeKind::MemberExpression { .. } => {
            Ok(rule_8(context, place, node))
        }
        NodeKind::Literal(_) => Ok(rule_12(context, place, node)),
        NodeKind::ExpressionStatement
        | NodeKind::FunctionBody
        | NodeKind::EmptyStatement
        | NodeKind::IfStatement
        | NodeKind::VariableDeclarator
        | NodeKind::Property { .. }
        | NodeKind::BinaryExpression(_)
        | NodeKind::LogicalExpression(_)
        | NodeKind::AssignmentExpression(_)
        | NodeKind::Statements
        | NodeKind::Arguments => Ok(None),
        _ => broken_by_any(alloc, context, place, node),
    }
}
