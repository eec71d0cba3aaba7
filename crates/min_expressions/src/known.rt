// What is known by its form of values.
ghost use Rattle.std.specs.Prelude.{◌≡◌};
ghost use Rattle.js_syntax.specs.Node.{forest_of};
ghost use Rattle.known_tests.specs.Tells.{nullish_type, opposite, way_known};
ghost use Rattle.steps.specs.Allowed.IndirectChoice.{truth_beside, way_beside};
ghost use Rattle.steps.specs.Allowed.KnownConditional.{truth_known};
ghost use Rattle.steps.specs.Allowed.KnownSide.{side_known};
ghost use Rattle.steps.specs.Allowed.Untaken.{truth_given};

use crate::list::acts_or_is_list;
use crate::unused::acts;
use js_effects::{BareContext, ValueType, evaluate_value_to_boolean, value_type};
use js_syntax::LogicalOperator;
use js_tree::Node;
use std::alloc::Global;

/// Whether the value of a test is true (ECMA-262 7.1.2), where its form tells, whatever it does before. The recursion goes as deep as
/// the tree.
pub fn truth_given(test: &Node, alloc: Global) -> Option<bool>
    ensures known { result ≡ truth_given test.now.kind test.now.note test.now.below }
{
    evaluate_value_to_boolean(test, &BareContext::new(alloc))
}

/// Whether a test is true (ECMA-262 7.1.2), if it does nothing but give its value, wherever it stands, and its form tells. The recursion
/// goes as deep as the tree.
pub fn truth_known(test: &Node, alloc: Global) -> Option<bool>
    ensures known { result ≡ truth_known test.now.kind test.now.note test.now.below }
{
    if acts_or_is_list(test) {
        None
    } else {
        truth_given(test, alloc)
    }
}

// Whether a test that acts is true, where its form tells.
pub(crate) fn truth_beside(test: &Node, alloc: Global) -> Option<bool>
    ensures { result ≡ truth_beside test.now.kind test.now.note test.now.below }
{
    if acts(test) {
        truth_given(test, alloc)
    } else {
        None
    }
}

fn opposite(known: Option<bool>) -> Option<bool>
    ensures { result ≡ opposite known }
{
    match known {
        Some(holds) => Some(!holds),
        None => None,
    }
}

fn nullish_type(value: ValueType) -> Option<bool>
    ensures { result ≡ nullish_type value }
{
    match value {
        ValueType::Undefined | ValueType::Null => Some(true),
        ValueType::Undetermined => None,
        _ => Some(false),
    }
}

fn way_known(operator: LogicalOperator, left: &Node, alloc: Global) -> Option<bool>
    ensures { result ≡ way_known operator (forest_of left.now) }
{
    match operator {
        LogicalOperator::And => truth_given(left, alloc),
        LogicalOperator::Or => opposite(truth_given(left, alloc)),
        LogicalOperator::Coalesce => nullish_type(value_type(left, &BareContext::new(alloc))),
    }
}

// Whether the right side is evaluated (ECMA-262 13.13), where the left one does nothing but give its value.
pub(crate) fn side_known(operator: LogicalOperator, left: &Node, alloc: Global) -> Option<bool>
    ensures { result ≡ side_known operator left.now.kind left.now.note left.now.below }
{
    if acts_or_is_list(left) {
        None
    } else {
        way_known(operator, left, alloc)
    }
}

// The same, where the left one acts.
pub(crate) fn way_beside(operator: LogicalOperator, left: &Node, alloc: Global) -> Option<bool>
    ensures { result ≡ way_beside operator left.now.kind left.now.note left.now.below }
{
    if acts(left) {
        way_known(operator, left, alloc)
    } else {
        None
    }
}
