// The texts of a template of which nobody takes the value become empty: its substitutions are converted alike between whatever texts.
ghost use Rattle.std.specs.Prelude.{◌≡◌, ◌≤◌, [], ◌∷◌, length, Some, true};
ghost use Rattle.std.specs.Option.{option_map};
ghost use Rattle.js_syntax.specs.Node.{row};
ghost use Rattle.form_rules.specs.Rules.{length_of};
ghost use Rattle.min_context.specs.Edited.{Edited};
ghost use Rattle.steps.specs.Allowed.TwoSides.{has_text, has_texts, is_whole, no_text, without_texts, text_emptied};
ghost use Rattle.rules.specs.Expressions.Lists.{new_note};
ghost use Rattle.rules.specs.Expressions.Uses.{spot_of};
ghost use Rattle.min_expressions.specs.Textless as texts;

use crate::uses::is_unused_from;
use js_syntax::{NodeKind, TemplateText, Text};
use js_tree::Node;
use min_context::MinifierTraverseCtx;
use std::alloc::Global;

// ---- whether it has any

fn has_text(kind: &NodeKind) -> bool
    ensures { result ≡ has_text kind.now }
{
    match kind {
        NodeKind::TemplateElement { value, tail: _ } => value.raw.as_str() != "",
        _ => false,
    }
}

#[tactic(auto, using(crate::proofs::Textless::one_has))]
fn item_has_text(item: &Option<Node>) -> bool
    ensures { result ≡ has_texts (row (item.now ∷ [])) }
{
    match item {
        Some(element) => has_text(element.kind()),
        None => false,
    }
}

fn have_texts(elements: &[Option<Node>]) -> bool
    ensures { result ≡ has_texts (row elements.now) }
{
    for element in elements {
        if item_has_text(element) {
            return true;
        }
    }
    false
}

// How many of these fields are nodes.
fn count(nodes: &[Option<Node>]) -> usize
    ensures length { result ≡ length_of (row nodes.now) }
    ensures few { result ≤ length nodes.now }
{
    let mut length = 0;
    for node in nodes {
        if let Some(_) = node {
            length += 1;
        }
    }
    length
}

fn is_whole(elements: &[Option<Node>], parts: &[Option<Node>]) -> bool
    ensures { result ≡ is_whole (row elements.now) (row parts.now) }
{
    count(elements) == count(parts) + 1
}

fn lists_have_texts(elements: &Node, parts: &Node) -> bool
    ensures { result ≡ texts.lists_have_texts elements.now.kind elements.now.below parts.now.kind parts.now.below }
{
    match elements.kind() {
        NodeKind::Quasis => match parts.kind() {
            NodeKind::Expressions => {
                have_texts(elements.children()) && is_whole(elements.children(), parts.children())
            }
            _ => false,
        },
        _ => false,
    }
}

fn row_has_texts(children: &[Option<Node>]) -> bool
    ensures { result ≡ texts.row_has_texts (row children.now) }
{
    match children {
        [Some(elements), Some(parts)] => lists_have_texts(elements, parts),
        [] => false,
        [None, ..] => false,
        [Some(_)] => false,
        [Some(_), None, ..] => false,
        [Some(_), Some(_), None, ..] => false,
        [Some(_), Some(_), Some(_), ..] => false,
    }
}

fn template_has_texts(node: &Node) -> bool
    ensures { result ≡ texts.template_has_texts node.now.kind node.now.below }
{
    match node.kind() {
        NodeKind::TemplateLiteral => row_has_texts(node.children()),
        _ => false,
    }
}

// The same where nobody takes the value of what stands where the walk is.
pub(crate) fn texts_go(node: &Node, ctx: &MinifierTraverseCtx) -> bool
    ensures { result ≡ texts.texts_go (spot_of ctx.now.place) node.now.kind node.now.below }
{
    is_unused_from(ctx.ancestors_above()) && template_has_texts(node)
}

// ---- and the change

fn no_text(alloc: Global) -> TemplateText
    ensures { result ≡ no_text }
{
    TemplateText {
        raw: Text::new(String::new(alloc)),
        cooked: Some(Text::new(String::new(alloc))),
    }
}

fn tail_of(kind: &NodeKind) -> Option<bool>
    ensures { result ≡ texts.tail_of kind.now }
{
    match kind {
        NodeKind::TemplateElement { value: _, tail } => Some(*tail),
        _ => None,
    }
}

#[tactic(auto, using(crate::proofs::Textless::textless_kind))]
fn empty_element(alloc: Global, tail: bool, element: &mut Node)
    requires element { texts.tail_of element.old.kind ≡ Some tail }
    ensures { element.new ≡ texts.textless element.old }
{
    let below = element.replace_children(Vec::new(alloc));
    let kind = NodeKind::TemplateElement {
        value: no_text(alloc),
        tail,
    };
    let mut written = Node::new(kind, element.span(), below);
    written.set_id(element.id());
    *element = written;
}

#[tactic(auto, using(crate::proofs::Textless::stays_textless))]
fn empty_item(alloc: Global, item: &mut Option<Node>)
    ensures { item.new ≡ option_map texts.textless item.old }
{
    if let Some(element) = item {
        if let Some(tail) = tail_of(element.kind()) {
            empty_element(alloc, tail, element);
        }
    }
}

fn empty_each(alloc: Global, elements: &mut [Option<Node>])
    ensures { row elements.new ≡ without_texts (row elements.old) }
{
    for element in elements.iter_mut() {
        empty_item(alloc, element);
    }
}

fn empty_list(alloc: Global, list: &mut Node)
    ensures { list.new ≡ texts.textless_list list.old }
{
    let mut elements = list.replace_children(Vec::new(alloc));
    empty_each(alloc, elements.as_mut_slice());
    list.replace_children(elements);
}

fn empty_field(alloc: Global, field: &mut Option<Node>)
    ensures { field.new ≡ option_map texts.textless_list field.old }
{
    if let Some(list) = field {
        empty_list(alloc, list);
    }
}

#[tactic(auto, using(crate::proofs::Textless::first_emptied, crate::proofs::Textless::no_first))]
fn empty_first(alloc: Global, children: &mut [Option<Node>])
    ensures { row children.new ≡ texts.textless_row (row children.old) }
{
    if children.len() > 0 {
        empty_field(alloc, &mut children[0]);
    }
}

// A template without its texts takes the place of the whole, in the rows that it had. Nothing leaves.
pub(crate) fn empty_texts(node: &mut Node, ctx: &mut MinifierTraverseCtx)
    requires texts { texts.template_has_texts node.old.kind node.old.below ≡ true }
    ensures kept { text_emptied (new_note node.old.note) node.old.kind node.old.below ≡ Some node.new }
    ensures edited { Edited ctx.old node.old node.new true ctx.new }
{
    let span = node.span();
    let mut children = node.replace_children(Vec::new(ctx.alloc()));
    empty_first(ctx.alloc(), children.as_mut_slice());
    let template = Node::new(NodeKind::TemplateLiteral, span, children);
    ctx.replace_expression(node, template);
}
