// The walk that tests the rules of form.
ghost use Rattle.std.specs.Prelude.{◌≡◌, ◌+◌, ◌^◌, ◌<◌, ◌++◌, IfOk, IfErr};
ghost use Rattle.js_syntax.specs.Node.{forest_of};
ghost use Rattle.js_tree.specs.Count.{one_each, node_count};
ghost use Rattle.form_rules.specs.Break.{least, merged};
ghost use Rattle.form_rules.specs.Form.{source_of, IsWellFormed};
ghost use Rattle.form_check.specs.Check.{broken_below, IsFaultOf};

use crate::broken_at;
use crate::error::FormError;
use form_context::{Context, Frame};
use form_rules::{Break, first_of};
use js_tree::{Node, NodeKind, Program, SourceType, count_of_kind};
use std::alloc::{AllocError, Global};

// What stands behind a node, and the first break so far.
#[derive(Drop)]
struct Checked {
    behind: u32,
    first: Option<Break>,
}

// Tests a node of this context, and all that lies below it.
fn check_node<'a>(
    alloc: Global,
    context: &Context<'a>,
    place: u32,
    node: &'a Node,
    first: Option<Break>,
) -> Result<Checked, AllocError>
    requires fits { place + node_count (forest_of node.now) < 2 ^ 32 }
    ensures behind { IfOk result (λ c. c.behind ≡ place + node_count (forest_of node.now)) }
    ensures first { IfOk result (λ c. c.first ≡ merged first (least (broken_below context.now node.now place))) }
{
    let here = broken_at(alloc, context, place, node)?;
    let frame = Frame::new(alloc, context, node)?;
    let mut first = first_of(first, here);
    let mut next = place + count_of_kind(node.kind());
    let children = node.children();
    for (at, child) in children.iter().enumerate() {
        if let Some(child) = child {
            let inner = context.inside(node, &frame, at)?;
            let checked = check_node(alloc, &inner, next, child, first)?;
            next = checked.behind;
            first = checked.first;
        }
    }
    Ok(Checked {
        behind: next,
        first,
    })
}

fn source_of(root: &Node) -> SourceType
    ensures { result ≡ source_of (forest_of root.now) }
{
    match root.kind() {
        NodeKind::Program(source) => *source,
        _ => SourceType::Script,
    }
}

/// Tests whether a program breaks a rule of form, and answers where it does first. The recursion goes as
/// deep as the tree.
pub fn well_formed(alloc: Global, program: &Program) -> Result<(), FormError>
    requires small { node_count (forest_of program.now) < 2 ^ 32 }
    ensures ok { IfOk result (λ _. IsWellFormed (forest_of program.now)) }
    ensures err { IfErr result (λ e. IsFaultOf e (forest_of program.now)) }
{
    let context = Context::outermost(source_of(program.root()));
    let checked = check_node(alloc, &context, 0, program.root(), None)?;
    match checked.first {
        None => Ok(()),
        Some(broken) => Err(FormError::IllFormed {
            rule: broken.rule,
            place: broken.place,
        }),
    }
}
