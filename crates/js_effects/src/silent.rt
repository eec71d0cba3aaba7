// Which expressions are silent.
ghost use Rattle.std.specs.Prelude.{◌≡◌, ◌==◌, Bool, not};
ghost use Rattle.js_syntax.specs.Node.{forest_of, row};
ghost use Rattle.js_effects.specs.Each.{width};
ghost use Rattle.js_effects.specs.Still as still;
ghost use Rattle.js_effects.specs.Silence as silence;
ghost use Rattle.js_effects.specs.Silence.{may_have_effects};

use crate::child::{child, inner_child};
use crate::context::FormsAlone;
use crate::effects::{converts_primitives, has_spread, is_array, is_silent_key, only_runs_parts};
use crate::surroundings::Surroundings;
use js_syntax::{FunctionKind, NodeKind, UnaryOperator};
use js_tree::Node;

fn is_expression(kind: FunctionKind) -> bool
    ensures { result ≡ still.is_expression kind }
{
    !matches!(kind, FunctionKind::Declaration)
}

pub(crate) fn is_value(kind: &NodeKind) -> bool
    ensures { result ≡ still.is_value kind.now }
{
    match kind {
        NodeKind::Literal(_)
        | NodeKind::RegExp(_)
        | NodeKind::NewTarget
        | NodeKind::Hole
        | NodeKind::TemplateElement { .. } => true,
        NodeKind::Function { kind, .. } => is_expression(*kind),
        _ => false,
    }
}

pub(crate) fn converts_nothing(operator: UnaryOperator) -> bool
    ensures { result ≡ still.converts_nothing operator }
{
    matches!(
        operator,
        UnaryOperator::LogicalNot | UnaryOperator::Void | UnaryOperator::Typeof
    )
}

fn runs_entries(node: &Node) -> bool
    ensures { result ≡ silence.runs_entries node.now.kind node.now.below }
{
    match node.kind() {
        NodeKind::Property { key, .. } => is_silent_key(node, key, &FormsAlone),
        NodeKind::SpreadElement => is_array(inner_child(node, 0)),
        NodeKind::Properties => !has_spread(node.children()),
        _ => false,
    }
}

fn runs_its_parts(node: &Node) -> bool
    ensures { result ≡ silence.runs_its_parts node.now.kind node.now.below }
{
    only_runs_parts(node.kind()) || converts_primitives(node, &FormsAlone) || runs_entries(node)
}

/// Whether an operation or a template gives a value of its parts and does nothing else, as far as their form tells: what it converts is
/// primitive, or nothing.
pub fn only_combines(node: &Node) -> bool
    ensures answer { result ≡ silence.only_combines node.now.kind node.now.below }
{
    converts_primitives(node, &FormsAlone)
}

/// A number's entry in a table of truth values; past its end, false.
pub fn is_marked(marks: &[bool], number: Option<u32>) -> bool
    ensures answer { result ≡ silence.is_marked marks.now number }
{
    match number {
        Some(number) => match marks.get(number as usize) {
            Some(mark) => *mark,
            None => false,
        },
        None => false,
    }
}

#[tactic(auto, using(crate::proofs::Children::row_width))]
fn has_one_part(node: &Node) -> bool
    ensures { result ≡ (width node.now.below == 1) }
{
    node.children().len() == 1
}

// A name, parentheses aside.
#[cycle(one_name)]
fn names_one(node: &Node) -> bool
    ensures { result ≡ silence.names_one node.now.kind node.now.below }
{
    match node.kind() {
        NodeKind::ReferenceName(_) => true,
        NodeKind::ParenthesizedExpression => has_one_name(node),
        _ => false,
    }
}

#[cycle(one_name)]
fn has_one_name(node: &Node) -> bool
    ensures { result ≡ silence.is_one_name node.now.below }
{
    match child(node, 0) {
        Some(part) => has_one_part(node) && names_one(part),
        None => false,
    }
}

fn is_known_name(node: &Node, bound: &[bool]) -> bool
    ensures { result ≡ silence.is_known_name bound.now node.now.kind node.now.note node.now.below }
{
    match node.kind() {
        NodeKind::ReferenceName(name) => {
            is_marked(bound, node.id()) || name.as_str() == "undefined"
        }
        NodeKind::UnaryExpression(UnaryOperator::Typeof) => has_one_name(node),
        _ => false,
    }
}

fn is_this(kind: &NodeKind) -> bool
    ensures { result ≡ silence.is_this kind.now }
{
    matches!(kind, NodeKind::ThisExpression)
}

fn is_known(node: &Node, bound: &[bool], around: Surroundings) -> bool
    ensures { result ≡ silence.is_known bound.now around node.now.kind node.now.note node.now.below }
{
    (!around.in_with && is_known_name(node, bound)) || (!around.in_class && is_this(node.kind()))
}

/// Whether an expression may have an effect. `bound` says of each reference by its number whether its
/// name has a binding, and `around` what stands around the expression. The recursion goes as deep as the
/// tree.
#[cycle(silent)]
pub fn may_have_side_effects(node: &Node, bound: &[bool], around: Surroundings) -> bool
    ensures answer { result ≡ may_have_effects bound.now around (forest_of node.now) }
{
    let is_silent = is_value(node.kind()) || is_known(node, bound, around);
    !is_silent && (!runs_its_parts(node) || any_has_effects(node.children(), bound, around))
}

#[cycle(silent)]
fn any_has_effects(children: &[Option<Node>], bound: &[bool], around: Surroundings) -> bool
    ensures { result ≡ may_have_effects bound.now around (row children.now) }
{
    for child in children {
        if let Some(node) = child {
            if may_have_side_effects(node, bound, around) {
                return true;
            }
        }
    }
    false
}

/// Whether no node of a row may have an effect.
pub fn none_has_side_effects(
    children: &[Option<Node>],
    bound: &[bool],
    around: Surroundings,
) -> bool
    ensures answer { result ≡ not (may_have_effects bound.now around (row children.now)) }
{
    !any_has_effects(children, bound, around)
}
