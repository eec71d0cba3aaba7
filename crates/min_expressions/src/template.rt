// What is left of a template of which nobody takes the value.
ghost use Rattle.std.specs.Prelude.{◌≡◌, Some, true};
ghost use Rattle.js_syntax.specs.Node.{row};
ghost use Rattle.min_context.specs.Edited.{Edited};
ghost use Rattle.steps.specs.Allowed.UnusedList.{list_becomes};
ghost use Rattle.rules.specs.Expressions.Lists.{new_note, list_note};
ghost use Rattle.rules.specs.Expressions.Uses.{spot_of};
ghost use Rattle.min_expressions.specs.Templates as templates;

use crate::kept::take_at;
use crate::list::{are_one, left_of_parts};
use crate::one_sided::mark_branch;
use crate::uses::is_unused_from;
use js_effects::only_combines;
use js_syntax::{NodeKind, Span};
use js_tree::Node;
use min_context::MinifierTraverseCtx;

// ---- whether it becomes anything

fn substitutions_go(texts: &Node, list: &Node) -> bool
    ensures { result ≡ templates.substitutions_go texts.now.kind list.now.kind list.now.below }
{
    match texts.kind() {
        NodeKind::Quasis => match list.kind() {
            NodeKind::Expressions => are_one(list.children()),
            _ => false,
        },
        _ => false,
    }
}

fn row_goes(children: &[Option<Node>]) -> bool
    ensures { result ≡ templates.row_goes (row children.now) }
{
    match children {
        [Some(texts), Some(list)] => substitutions_go(texts, list),
        [] => false,
        [None, ..] => false,
        [Some(_)] => false,
        [Some(_), None, ..] => false,
        [Some(_), Some(_), None, ..] => false,
        [Some(_), Some(_), Some(_), ..] => false,
    }
}

fn goes(node: &Node) -> bool
    ensures { result ≡ templates.template_goes node.now.kind node.now.below }
{
    match node.kind() {
        NodeKind::TemplateLiteral => only_combines(node) && row_goes(node.children()),
        _ => false,
    }
}

// Whether a template, where the walk is, becomes what acts of its substitutions.
pub(crate) fn template_goes(node: &Node, ctx: &MinifierTraverseCtx) -> bool
    ensures { result ≡ templates.unused_template_goes (spot_of ctx.now.place) node.now.kind node.now.below }
{
    is_unused_from(ctx.ancestors_above()) && goes(node)
}

// ---- and then it is let go, texts and all. The vectors that are there are used again.

fn first_span(node: &Node) -> Span
    ensures { result ≡ templates.first_span node.now.note.span node.now.below }
{
    match node.children() {
        [Some(first), ..] => first.span(),
        [] => node.span(),
        [None, ..] => node.span(),
    }
}

// What acts of the substitutions takes the place of the whole. The context is told of what leaves.
pub(crate) fn keep_substitutions(node: &mut Node, ctx: &mut MinifierTraverseCtx)
    requires goes { templates.template_goes node.old.kind node.old.below ≡ true }
    ensures kept { list_becomes (new_note node.old.note) (new_note (list_note node.old.below)) node.old.kind node.old.below ≡ Some node.new }
    ensures edited { Edited ctx.old node.old node.new true ctx.new }
{
    let span = node.span();
    let list_span = first_span(node);
    let mut children = node.replace_children(Vec::new(ctx.alloc()));
    let texts = children.remove(0);
    mark_branch(&texts, ctx);
    if let Some(list) = take_at(children.as_mut_slice(), 0) {
        let left = left_of_parts(span, children, list_span, list.into_children(), ctx);
        ctx.replace_expression(node, left);
    }
}
