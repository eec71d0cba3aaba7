// What is left of a sequence whose value may be taken.
ghost use Rattle.std.specs.Prelude.{◌≡◌, ◌-◌, ◌<◌, ◌≤◌, [], ◌∷◌, ◌++◌, Bool, true, false, length, take, slice_index_or, slice_set, Some, None};
ghost use Rattle.js_syntax.specs.declared.node_kind.NodeKind.{NodeKind as Kind};
ghost use Rattle.js_syntax.specs.Node.{Tree, row};
ghost use Rattle.scope_counts.specs.Counts.{ids};
ghost use Rattle.min_context.specs.Edited.{evals, Leaves, Edited};
ghost use Rattle.steps.specs.Allowed.IdleParts.{is_zero, is_more, more_before, counting, as_value_of, sequence_becomes};
ghost use Rattle.rules.specs.Expressions.Lists.{new_note, list_note};
ghost use Rattle.rules.specs.Expressions.Uses.{Spot, spot_of};
ghost use Rattle.min_expressions.specs.Lists.{only};
ghost use Rattle.min_expressions.specs.Indirect.{put_behind};
ghost use Rattle.min_expressions.specs.Sequences.{item_stays, some_stay, more_alone, leaving, last_stands, are_value, comes_behind, parts_go, list_goes, only_goes, sequence_goes};

use crate::bare::may_stand_bare;
use crate::indirect::{behind_zero, zero};
use crate::kept::take_at;
use crate::list::{acts_or_is_list, has_idle, is_list, only, sequence, take_only};
use js_syntax::{LiteralValue, NodeKind, Span};
use js_tree::Node;
use min_context::MinifierTraverseCtx;
use std::alloc::Global;
use std::mem::replace;

// ---- whether it becomes anything

// Of a part that another follows.
fn item_stays(item: &Option<Node>) -> bool
    ensures { result ≡ item_stays item.now }
{
    match item {
        Some(node) => acts_or_is_list(node),
        None => true,
    }
}

fn some_stay(parts: &[Option<Node>]) -> bool
    ensures { result ≡ some_stay (row parts.now) }
{
    for part in parts {
        if item_stays(part) {
            return true;
        }
    }
    false
}

fn last_stands(last: &Option<Node>, ctx: &MinifierTraverseCtx) -> bool
    ensures { result ≡ last_stands (spot_of ctx.now.place) last.now }
{
    match last {
        Some(node) => may_stand_bare(node, ctx),
        None => true,
    }
}

fn is_zero(value: &LiteralValue) -> bool
    ensures { result ≡ is_zero value.now }
{
    match value {
        LiteralValue::Number(number) => *number == 0,
        _ => false,
    }
}

fn holds_more(children: &[Option<Node>]) -> bool
    ensures { result ≡ is_more Kind.ParenthesizedExpression (row children.now) }
{
    match children {
        [Some(first), ..] => !is_list(first.kind()),
        [] => false,
        [None, ..] => false,
    }
}

// Whether a part is more than a zero in its place.
fn is_more(node: &Node) -> bool
    ensures { result ≡ is_more node.now.kind node.now.below }
{
    match node.kind() {
        NodeKind::Literal(value) => !is_zero(value),
        NodeKind::Hole => false,
        NodeKind::ClassBody => false,
        NodeKind::ParenthesizedExpression => holds_more(node.children()),
        _ => true,
    }
}

// Of the parts before the last.
fn more_alone(front: &[Option<Node>]) -> bool
    ensures { result ≡ more_alone (row front.now) }
{
    match front {
        [Some(node)] => is_more(node),
        [] => true,
        [None, ..] => true,
        [Some(_), None, ..] => true,
        [Some(_), Some(_), ..] => true,
    }
}

// Whether the last part is left alone, and may not stand where the whole did.
fn comes_behind(parts: &[Option<Node>], ctx: &MinifierTraverseCtx) -> bool
    ensures { result ≡ comes_behind (spot_of ctx.now.place) (row parts.now) }
{
    match parts {
        [front @ .., last] => {
            if some_stay(front) {
                false
            } else {
                !last_stands(last, ctx)
            }
        }
        [] => true,
    }
}

// Whether not all parts stay, and those that do are one expression, or come to be one behind a zero.
fn parts_go(parts: &[Option<Node>], ctx: &MinifierTraverseCtx) -> bool
    ensures { result ≡ parts_go (spot_of ctx.now.place) (row parts.now) }
{
    match parts {
        [front @ .., _] => has_idle(front) && (!comes_behind(parts, ctx) || more_alone(front)),
        [] => false,
    }
}

fn list_goes(list: &Node, ctx: &MinifierTraverseCtx) -> bool
    ensures { result ≡ list_goes (spot_of ctx.now.place) list.now.kind list.now.below }
{
    match list.kind() {
        NodeKind::Expressions => parts_go(list.children(), ctx),
        _ => false,
    }
}

fn only_goes(children: &[Option<Node>], ctx: &MinifierTraverseCtx) -> bool
    ensures { result ≡ only_goes (spot_of ctx.now.place) (only (row children.now)) }
{
    match only(children) {
        Some(list) => list_goes(list, ctx),
        None => false,
    }
}

// Whether a sequence, where the walk is, becomes what stays of it.
pub(crate) fn sequence_goes(node: &Node, ctx: &MinifierTraverseCtx) -> bool
    ensures { result ≡ sequence_goes (spot_of ctx.now.place) node.now.kind node.now.below }
{
    match node.kind() {
        NodeKind::SequenceExpression => only_goes(node.children(), ctx),
        _ => false,
    }
}

// ---- the context is told of what leaves

fn mark_unless_stays(item: &Option<Node>, ctx: &mut MinifierTraverseCtx)
    ensures left { Leaves ctx.old (λ r. ids r (leaving (row (item.now ∷ [])))) (evals (leaving (row (item.now ∷ [])))) ctx.new }
{
    if let Some(node) = item {
        if !acts_or_is_list(node) {
            ctx.mark_node(node);
        }
    }
}

fn mark_leaving(parts: &[Option<Node>], ctx: &mut MinifierTraverseCtx)
    ensures left { Leaves ctx.old (λ r. ids r (leaving (row parts.now))) (evals (leaving (row parts.now))) ctx.new }
{
    for part in parts {
        mark_unless_stays(part, ctx);
    }
}

// All but the last, which stays.
fn mark_before_last(parts: &[Option<Node>], ctx: &mut MinifierTraverseCtx)
    ensures left { Leaves ctx.old (λ r. ids r (row parts.now) - ids r (counting (row parts.now))) (evals (row parts.now) - evals (counting (row parts.now))) ctx.new }
{
    match parts {
        [front @ .., _] => mark_leaving(front, ctx),
        [] => {}
    }
}

// ---- and then it is let go. The vectors that are there are used again.

fn replace_at(parts: &mut [Option<Node>], at: usize, item: Option<Node>) -> Option<Node>
    requires { at < length parts.old }
    ensures taken { result ≡ slice_index_or parts.old at None }
    ensures left { parts.new ≡ slice_set parts.old at item }
{
    replace(&mut parts[at], item)
}

fn replace_last(parts: &mut Vec<Option<Node>>, item: Option<Node>) -> Option<Node>
    requires { 0 < length parts.old.items }
    ensures last { parts.old.items ≡ take (length parts.old.items - 1) parts.old.items ++ result ∷ [] }
    ensures put { parts.new.items ≡ take (length parts.old.items - 1) parts.old.items ++ item ∷ [] }
{
    let end = parts.len() - 1;
    replace_at(parts.as_mut_slice(), end, item)
}

// The last part isn't asked.
fn keep_staying(parts: &mut Vec<Option<Node>>)
    requires { 0 < length parts.old.items }
    ensures { row parts.new.items ≡ counting (row parts.old.items) }
{
    let last = replace_last(parts, None);
    parts.retain(|part| item_stays(part));
    replace_last(parts, last);
}

// The last part comes to stand behind a zero.
fn last_behind_zero(
    alloc: Global,
    span: Span,
    field: Vec<Option<Node>>,
    mut parts: Vec<Option<Node>>,
) -> Node
    requires field { length field.items ≡ 1 }
    requires several { 2 ≤ length parts.items }
    ensures { (x : Tree) → slice_index_or parts.items (length parts.items - 1) None ≡ Some x → result ≡ put_behind (record { span = span; id = None }) x }
{
    let end = parts.len() - 1;
    match replace_at(parts.as_mut_slice(), end, None) {
        Some(part) => behind_zero(alloc, span, field, parts, part),
        None => zero(alloc, span),
    }
}

// The parts that stay: one itself, or several.
fn staying(
    span: Span,
    children: Vec<Option<Node>>,
    list_span: Span,
    mut parts: Vec<Option<Node>>,
) -> Node
    requires field { length children.items ≡ 1 }
    requires some { 0 < length parts.items }
    ensures { (s : Spot) (more : Bool) → are_value s false (counting (row parts.items)) ≡ true
        → as_value_of s.used_as s.in_with more (record { span = span; id = None }) (record { span = list_span; id = None }) (counting (row parts.items)) ≡ Some result }
{
    keep_staying(&mut parts);
    match take_only(&mut parts) {
        Some(part) => part,
        None => sequence(span, children, list_span, parts),
    }
}

// What is left of the list of a sequence.
fn left_of(
    span: Span,
    children: Vec<Option<Node>>,
    list: Node,
    ctx: &mut MinifierTraverseCtx,
) -> Node
    requires field { length children.items ≡ 1 }
    requires goes { parts_go (spot_of ctx.old.place) list.below ≡ true }
    ensures kept { as_value_of (spot_of ctx.old.place).used_as (spot_of ctx.old.place).in_with (more_before list.below) (record { span = span; id = None }) (new_note list.note) (counting list.below) ≡ Some result }
    ensures left { Leaves ctx.old (λ r. ids r list.below - ids r (counting list.below)) (evals list.below - evals (counting list.below)) ctx.new }
{
    let list_span = list.span();
    let parts = list.into_children();
    let behind = comes_behind(parts.as_slice(), ctx);
    mark_before_last(parts.as_slice(), ctx);
    if behind {
        last_behind_zero(ctx.alloc(), span, children, parts)
    } else {
        staying(span, children, list_span, parts)
    }
}

// What stays of a sequence takes the place of the whole, itself or behind a zero. The context is told of what leaves.
pub(crate) fn keep_sequence(node: &mut Node, ctx: &mut MinifierTraverseCtx)
    requires goes { sequence_goes (spot_of ctx.old.place) node.old.kind node.old.below ≡ true }
    ensures kept { sequence_becomes (spot_of ctx.old.place).used_as (spot_of ctx.old.place).in_with (new_note node.old.note) (new_note (list_note node.old.below)) node.old.kind node.old.below ≡ Some node.new }
    ensures edited { Edited ctx.old node.old node.new true ctx.new }
{
    let span = node.span();
    let mut children = node.replace_children(Vec::new(ctx.alloc()));
    if let Some(list) = take_at(children.as_mut_slice(), 0) {
        let left = left_of(span, children, list, ctx);
        ctx.replace_expression(node, left);
    }
}
