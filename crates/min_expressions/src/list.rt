// What is left of a list of which nobody takes the value.
ghost use Rattle.std.specs.Prelude.{◌≡◌, [], ◌∷◌, not, ◌||◌, length, Some, None, true, false, is_some};
ghost use Rattle.std.specs.Option.{option_map};
ghost use Rattle.js_syntax.specs.declared.node_kind.NodeKind.TheVariants.{ArrayExpression as array_expression, Elements as elements, SequenceExpression as sequence_expression, Expressions as expressions};
ghost use Rattle.js_syntax.specs.Node.{nothing, node, row};
ghost use Rattle.js_tree.specs.Walk.{is_list};
ghost use Rattle.scope_counts.specs.Counts.{ids};
ghost use Rattle.min_context.specs.Edited.{evals, Leaves, Edited};
ghost use Rattle.steps.specs.Allowed.UnusedList as unused;
ghost use Rattle.rules.specs.Expressions.Lists.{new_note, list_note};
ghost use Rattle.rules.specs.Expressions.Uses.{spot_of};
ghost use Rattle.min_expressions.specs.Unused.{tree_acts};
ghost use Rattle.min_expressions.specs.Lists.{only, item_acts, idle, told_found, none, found_with, found_from, is_enough, are_one, is_array, list_left, are_left, elements_go, expressions_go, array_goes, sequence_goes, parts_go, list_goes};

use crate::bare::stands_bare;
use crate::kept::take_at;
use crate::unused::acts;
use crate::uses::{Use, is_unused_from};
use js_syntax::{NodeKind, Span};
use js_tree::{Node, put_child};
use min_context::MinifierTraverseCtx;

fn item_acts(item: &Option<Node>) -> bool
    ensures { result ≡ item_acts item.now }
{
    match item {
        Some(node) => acts(node),
        None => false,
    }
}

// ---- whether it becomes anything

fn is_spread(item: &Option<Node>) -> bool
    ensures { result ≡ unused.has_spread (row (item.now ∷ [])) }
{
    match item {
        Some(node) => matches!(node.kind(), NodeKind::SpreadElement),
        None => false,
    }
}

/// Whether one of some parts is spread.
pub fn has_spread(parts: &[Option<Node>]) -> bool
    ensures spread { result ≡ unused.has_spread (row parts.now) }
{
    for part in parts {
        if is_spread(part) {
            return true;
        }
    }
    false
}

fn is_spread_kind(kind: &NodeKind) -> bool
    ensures { result ≡ unused.is_spread kind.now }
{
    matches!(kind, NodeKind::SpreadElement)
}

#[tactic(auto, using(crate::proofs::Lists::acting_spread_is))]
fn is_acting_spread(item: &Option<Node>) -> bool
    ensures { result ≡ unused.has_spread (unused.acting (row (item.now ∷ []))) }
{
    match item {
        Some(node) => is_spread_kind(node.kind()) && acts(node),
        None => false,
    }
}

// Whether one is that acts.
fn has_acting_spread(parts: &[Option<Node>]) -> bool
    ensures spread { result ≡ unused.has_spread (unused.acting (row parts.now)) }
{
    for part in parts {
        if is_acting_spread(part) {
            return true;
        }
    }
    false
}

pub(crate) fn is_list(kind: &NodeKind) -> bool
    ensures { result ≡ is_list kind.now }
{
    match kind {
        NodeKind::Statements
        | NodeKind::Cases
        | NodeKind::Declarators
        | NodeKind::Parameters
        | NodeKind::Members
        | NodeKind::Elements
        | NodeKind::Properties
        | NodeKind::Expressions
        | NodeKind::Arguments
        | NodeKind::Quasis
        | NodeKind::Specifiers => true,
        _ => false,
    }
}

pub(crate) fn acts_or_is_list(node: &Node) -> bool
    ensures { result ≡ (tree_acts node.now || is_list node.now.kind) }
{
    acts(node) || is_list(node.kind())
}

#[tactic(auto, using(crate::proofs::Lists::idle_is))]
fn is_idle(item: &Option<Node>) -> bool
    ensures { result ≡ not (unused.all_act (row (item.now ∷ []))) }
{
    match item {
        Some(node) => !acts_or_is_list(node),
        None => false,
    }
}

// Whether not all act.
pub(crate) fn has_idle(parts: &[Option<Node>]) -> bool
    ensures { result ≡ not (unused.all_act (row parts.now)) }
{
    for part in parts {
        if is_idle(part) {
            return true;
        }
    }
    false
}

/// What acts: nothing, one part, which may stand there itself or not, or several.
#[derive(Clone, Copy)]
pub(crate) enum Found {
    Nothing,
    One(bool),
    Several,
}

pub(crate) fn found_also(found: Found, node: &Node) -> Found
    ensures { told_found result ≡ found_with (told_found found) (Some node.now) }
{
    if !acts(node) {
        return found;
    }
    match found {
        Found::Nothing => Found::One(stands_bare(Use::Value, false, node)),
        Found::One(_) => Found::Several,
        Found::Several => Found::Several,
    }
}

fn found_with(found: Found, item: &Option<Node>) -> Found
    ensures { told_found result ≡ found_with (told_found found) item.now }
{
    match item {
        Some(node) => found_also(found, node),
        None => found,
    }
}

fn found_in(parts: &[Option<Node>]) -> Found
    ensures { told_found result ≡ found_from none parts.now }
{
    let mut found = Found::Nothing;
    for part in parts {
        found = found_with(found, part);
    }
    found
}

pub(crate) fn is_enough(found: Found) -> bool
    ensures { result ≡ is_enough (told_found found) }
{
    match found {
        Found::Nothing => false,
        Found::One(is_bare) => is_bare,
        Found::Several => true,
    }
}

// Whether what acts is one expression.
#[tactic(auto, using(crate::proofs::Lists::enough_found))]
pub(crate) fn are_one(parts: &[Option<Node>]) -> bool
    ensures { result ≡ are_one (unused.acting (row parts.now)) }
{
    is_enough(found_in(parts))
}

pub(crate) fn only(children: &[Option<Node>]) -> Option<&Node>
    ensures { option_map (λ v. v.now) result ≡ only (row children.now) }
{
    match children {
        [Some(child)] => Some(child),
        [] => None,
        [None, ..] => None,
        [Some(_), None, ..] => None,
        [Some(_), Some(_), ..] => None,
    }
}

// What is spread and acts stays in an array, which changes if not all does.
fn row_changes(parts: &[Option<Node>]) -> bool
    ensures { result ≡ elements_go elements (row parts.now) }
{
    if has_acting_spread(parts) {
        has_idle(parts)
    } else {
        are_one(parts)
    }
}

fn elements_go(list: &Node) -> bool
    ensures { result ≡ elements_go list.now.kind list.now.below }
{
    match list.kind() {
        NodeKind::Elements => row_changes(list.children()),
        _ => false,
    }
}

fn expressions_go(list: &Node) -> bool
    ensures { result ≡ expressions_go list.now.kind list.now.below }
{
    match list.kind() {
        NodeKind::Expressions => has_idle(list.children()) && are_one(list.children()),
        _ => false,
    }
}

fn array_goes(children: &[Option<Node>]) -> bool
    ensures { result ≡ array_goes (only (row children.now)) }
{
    match only(children) {
        Some(list) => elements_go(list),
        None => false,
    }
}

fn sequence_goes(children: &[Option<Node>]) -> bool
    ensures { result ≡ sequence_goes (only (row children.now)) }
{
    match only(children) {
        Some(list) => expressions_go(list),
        None => false,
    }
}

// Whether a list, where the walk is, becomes what acts of it.
pub(crate) fn list_goes(node: &Node, ctx: &MinifierTraverseCtx) -> bool
    ensures { result ≡ list_goes (spot_of ctx.now.place) node.now.kind node.now.below }
{
    match node.kind() {
        NodeKind::ArrayExpression => {
            is_unused_from(ctx.ancestors_above()) && array_goes(node.children())
        }
        NodeKind::SequenceExpression => {
            is_unused_from(ctx.ancestors_above()) && sequence_goes(node.children())
        }
        _ => false,
    }
}

// ---- the context is told of what doesn't act

fn mark_idle(item: &Option<Node>, ctx: &mut MinifierTraverseCtx)
    ensures left { Leaves ctx.old (λ r. ids r (idle (row (item.now ∷ [])))) (evals (idle (row (item.now ∷ [])))) ctx.new }
{
    if let Some(node) = item {
        if !acts(node) {
            ctx.mark_node(node);
        }
    }
}

pub(crate) fn mark_all_idle(parts: &[Option<Node>], ctx: &mut MinifierTraverseCtx)
    ensures left { Leaves ctx.old (λ r. ids r (idle (row parts.now))) (evals (idle (row parts.now))) ctx.new }
{
    for part in parts {
        mark_idle(part, ctx);
    }
}

// ---- and then it is let go. The vectors that are there are used again.

pub(crate) fn keep_acting(parts: &mut Vec<Option<Node>>)
    ensures { row parts.new.items ≡ unused.acting (row parts.old.items) }
{
    parts.retain(|part| item_acts(part));
}

// Takes out the part that is alone.
pub(crate) fn take_only(parts: &mut Vec<Option<Node>>) -> Option<Node>
    ensures taken { result ≡ only (row parts.old.items) }
    ensures others { is_some result ≡ false → row parts.new.items ≡ row parts.old.items }
{
    if parts.len() == 1 {
        take_at(parts.as_mut_slice(), 0)
    } else {
        None
    }
}

// A sequence of these parts, in the row of one field that is given.
pub(crate) fn sequence(
    span: Span,
    mut children: Vec<Option<Node>>,
    list_span: Span,
    parts: Vec<Option<Node>>,
) -> Node
    requires { length children.items ≡ 1 }
    ensures { result ≡ record { kind = sequence_expression; note = record { span = span; id = None }; below = node expressions (record { span = list_span; id = None }) (row parts.items) nothing } }
{
    let list = Node::new(NodeKind::Expressions, list_span, parts);
    put_child(&mut children.as_mut_slice()[0], list);
    Node::new(NodeKind::SequenceExpression, span, children)
}

// One part that is alone, or a sequence of several.
fn one_of(
    span: Span,
    children: Vec<Option<Node>>,
    list_span: Span,
    mut parts: Vec<Option<Node>>,
) -> Node
    requires field { length children.items ≡ 1 }
    requires one { are_one (row parts.items) ≡ true }
    ensures { unused.as_one (record { span = span; id = None }) (record { span = list_span; id = None }) (row parts.items) ≡ Some result }
{
    match take_only(&mut parts) {
        Some(part) => part,
        None => sequence(span, children, list_span, parts),
    }
}

// What is left of some parts.
pub(crate) fn left_of_parts(
    span: Span,
    children: Vec<Option<Node>>,
    list_span: Span,
    mut parts: Vec<Option<Node>>,
    ctx: &mut MinifierTraverseCtx,
) -> Node
    requires field { length children.items ≡ 1 }
    requires one { are_one (unused.acting (row parts.items)) ≡ true }
    ensures kept { unused.as_one (record { span = span; id = None }) (record { span = list_span; id = None }) (unused.acting (row parts.items)) ≡ Some result }
    ensures left { Leaves ctx.old (λ r. ids r (idle (row parts.items))) (evals (idle (row parts.items))) ctx.new }
{
    mark_all_idle(parts.as_slice(), ctx);
    keep_acting(&mut parts);
    one_of(span, children, list_span, parts)
}

// What is left of a list.
pub(crate) fn left_of(
    span: Span,
    children: Vec<Option<Node>>,
    list: Node,
    ctx: &mut MinifierTraverseCtx,
) -> Node
    requires field { length children.items ≡ 1 }
    requires one { are_one (unused.acting list.below) ≡ true }
    ensures kept { unused.as_one (record { span = span; id = None }) (new_note list.note) (unused.acting list.below) ≡ Some result }
    ensures left { Leaves ctx.old (λ r. ids r (idle list.below)) (evals (idle list.below)) ctx.new }
{
    let list_span = list.span();
    left_of_parts(span, children, list_span, list.into_children(), ctx)
}

// An array of these elements, in the row of one field that is given.
fn array(
    span: Span,
    mut children: Vec<Option<Node>>,
    list_span: Span,
    parts: Vec<Option<Node>>,
) -> Node
    requires { length children.items ≡ 1 }
    ensures { result ≡ record { kind = array_expression; note = record { span = span; id = None }; below = node elements (record { span = list_span; id = None }) (row parts.items) nothing } }
{
    let list = Node::new(NodeKind::Elements, list_span, parts);
    put_child(&mut children.as_mut_slice()[0], list);
    Node::new(NodeKind::ArrayExpression, span, children)
}

// An array where one of these elements is spread.
fn array_or_one(
    span: Span,
    children: Vec<Option<Node>>,
    list_span: Span,
    parts: Vec<Option<Node>>,
) -> Node
    requires field { length children.items ≡ 1 }
    requires one { are_left true (row parts.items) ≡ true }
    ensures { unused.as_elements (record { span = span; id = None }) (record { span = list_span; id = None }) (row parts.items) ≡ Some result }
{
    if has_spread(parts.as_slice()) {
        array(span, children, list_span, parts)
    } else {
        one_of(span, children, list_span, parts)
    }
}

// What is left of the elements of an array.
fn left_of_elements(
    span: Span,
    children: Vec<Option<Node>>,
    list: Node,
    ctx: &mut MinifierTraverseCtx,
) -> Node
    requires field { length children.items ≡ 1 }
    requires one { are_left true (unused.acting list.below) ≡ true }
    ensures kept { unused.as_elements (record { span = span; id = None }) (new_note list.note) (unused.acting list.below) ≡ Some result }
    ensures left { Leaves ctx.old (λ r. ids r (idle list.below)) (evals (idle list.below)) ctx.new }
{
    let list_span = list.span();
    let mut parts = list.into_children();
    mark_all_idle(parts.as_slice(), ctx);
    keep_acting(&mut parts);
    array_or_one(span, children, list_span, parts)
}

fn is_array(kind: &NodeKind) -> bool
    ensures { result ≡ is_array kind.now }
{
    matches!(kind, NodeKind::ArrayExpression)
}

// The same of an array or of another list.
fn left_of_list(
    array: bool,
    span: Span,
    children: Vec<Option<Node>>,
    list: Node,
    ctx: &mut MinifierTraverseCtx,
) -> Node
    requires field { length children.items ≡ 1 }
    requires one { are_left array (unused.acting list.below) ≡ true }
    ensures kept { list_left array (record { span = span; id = None }) (new_note list.note) (unused.acting list.below) ≡ Some result }
    ensures left { Leaves ctx.old (λ r. ids r (idle list.below)) (evals (idle list.below)) ctx.new }
{
    if array {
        left_of_elements(span, children, list, ctx)
    } else {
        left_of(span, children, list, ctx)
    }
}

// What acts of a list takes the place of the whole. The context is told of what leaves.
pub(crate) fn keep_list(node: &mut Node, ctx: &mut MinifierTraverseCtx)
    requires goes { parts_go node.old.kind node.old.below ≡ true }
    ensures kept { unused.list_becomes (new_note node.old.note) (new_note (list_note node.old.below)) node.old.kind node.old.below ≡ Some node.new }
    ensures edited { Edited ctx.old node.old node.new true ctx.new }
{
    let span = node.span();
    let array = is_array(node.kind());
    let mut children = node.replace_children(Vec::new(ctx.alloc()));
    if let Some(list) = take_at(children.as_mut_slice(), 0) {
        let left = left_of_list(array, span, children, list, ctx);
        ctx.replace_expression(node, left);
    }
}
