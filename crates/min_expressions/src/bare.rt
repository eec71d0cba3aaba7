// Whether it is the same with an expression itself as with the value that another gives.
ghost use Rattle.std.specs.Prelude.{◌≡◌};
ghost use Rattle.js_syntax.specs.Node.{row};
ghost use Rattle.steps.specs.Allowed.Uses.{is_eval, name_matters, member_matters, chain_matters, matters, may_take_name, stands_bare};
ghost use Rattle.rules.specs.Expressions.Uses.{spot_of};
ghost use Rattle.min_expressions.specs.Uses.{told};
ghost use Rattle.min_expressions.specs.Kept.{stands_at, matters_at};

use crate::uses::{Use, has_with, use_from};
use js_syntax::{Ident, NodeKind};
use js_tree::Node;
use min_context::MinifierTraverseCtx;

fn is_eval(name: &Ident) -> bool
    ensures { result ≡ is_eval name.now }
{
    name.as_str() == "eval"
}

fn name_matters(used: Use, in_with: bool, name: &Ident) -> bool
    ensures { result ≡ name_matters (told used) in_with name.now }
{
    match used {
        Use::Value => false,
        Use::Callee => in_with || is_eval(name),
        Use::Typed => true,
        Use::Deleted => true,
    }
}

fn member_matters(used: Use) -> bool
    ensures { result ≡ member_matters (told used) }
{
    match used {
        Use::Value => false,
        Use::Callee => true,
        Use::Typed => false,
        Use::Deleted => true,
    }
}

fn chain_matters(used: Use, children: &[Option<Node>]) -> bool
    ensures { result ≡ chain_matters (told used) (row children.now) }
{
    let Some(Some(node)) = children.first() else {
        return false;
    };
    match node.kind() {
        NodeKind::MemberExpression { .. } => member_matters(used),
        _ => false,
    }
}

fn matters(used: Use, in_with: bool, node: &Node) -> bool
    ensures { result ≡ matters (told used) in_with node.now.kind node.now.below }
{
    match node.kind() {
        NodeKind::ReferenceName(name) => name_matters(used, in_with, name),
        NodeKind::MemberExpression { .. } => member_matters(used),
        NodeKind::ChainExpression => chain_matters(used, node.children()),
        NodeKind::ParenthesizedExpression => {
            let Some(Some(inner)) = node.children().first() else {
                return false;
            };
            matters(used, in_with, inner)
        }
        _ => false,
    }
}

/// Whether an expression is a function or a class, parentheses aside: it may take its name from where it stands.
pub fn may_take_name(node: &Node) -> bool
    ensures { result ≡ may_take_name node.now.kind node.now.below }
{
    match node.kind() {
        NodeKind::Function { .. } => true,
        NodeKind::Class(_) => true,
        NodeKind::ParenthesizedExpression => {
            let Some(Some(inner)) = node.children().first() else {
                return false;
            };
            may_take_name(inner)
        }
        _ => false,
    }
}

// Whether it is the same with an expression itself, used so, as with the value that another gives.
pub(crate) fn stands_bare(used: Use, in_with: bool, node: &Node) -> bool
    ensures { result ≡ stands_bare (told used) in_with node.now.kind node.now.below }
{
    !(matters(used, in_with, node) || may_take_name(node))
}

// Whether it matters that an expression stands itself where the walk is.
pub(crate) fn matters_here(node: &Node, ctx: &MinifierTraverseCtx) -> bool
    ensures { result ≡ matters_at (spot_of ctx.now.place) node.now }
{
    let above = ctx.ancestors_above();
    matters(use_from(above), has_with(above), node)
}

// Whether it may stand there for another that gives its value.
pub(crate) fn may_stand_bare(node: &Node, ctx: &MinifierTraverseCtx) -> bool
    ensures { result ≡ stands_at (spot_of ctx.now.place) node.now }
{
    let above = ctx.ancestors_above();
    stands_bare(use_from(above), has_with(above), node)
}
