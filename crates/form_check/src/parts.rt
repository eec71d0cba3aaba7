// The parts that the grammar asks for.
ghost use Rattle.std.specs.Prelude.{◌≡◌, ◌+◌, ◌^◌, ◌<◌, IfOk};
ghost use Rattle.js_syntax.specs.Node.{forest_of, row};
ghost use Rattle.js_tree.specs.Count.{node_count};
ghost use Rattle.form_rules.specs.Break.{least};
ghost use Rattle.form_rules.specs.Rules.{each_breaks, all_but_first, counts_right, is_declaration, parts_of, rule_11};
ghost use Rattle.form_check.specs.Parts.{declarator_breaks};

use crate::local::unless;
use crate::rows::{has_handler_or_finalizer, length_of};
use form_context::Context;
use form_declared::{behind, constructors, defaults, early_rests, first_below, wrong_declarators};
use form_names::first_break;
use form_rules::{Break, first_of};
use js_syntax::{ClassKind, FunctionKind, VariableKind};
use js_tree::{Node, NodeKind};
use std::alloc::{AllocError, Global};

// The first break of a rule by all but the first of these places.
fn behind_first(rule: u8, places: &[u32]) -> Option<Break>
    ensures { result ≡ least (each_breaks rule (all_but_first places.now)) }
{
    match places {
        [_, rest @ ..] => first_break(rule, rest),
        [] => None,
    }
}

fn counts_right(is_head: bool, count: usize) -> bool
    ensures { result ≡ counts_right is_head count }
{
    if is_head { count == 1 } else { count != 0 }
}

// Declarations that may not stand alone as the body of another statement.
fn is_declaration(kind: &NodeKind) -> bool
    ensures { result ≡ is_declaration kind.now }
{
    match kind {
        NodeKind::VariableDeclaration(VariableKind::Let | VariableKind::Const)
        | NodeKind::Class(ClassKind::Declaration)
        | NodeKind::Function {
            kind: FunctionKind::Declaration,
            ..
        } => true,
        _ => false,
    }
}

// The declarators of a declaration: there are some, and each has an initialiser where it needs one.
fn declarator_breaks(
    alloc: Global,
    is_head: bool,
    how: VariableKind,
    place: u32,
    children: &[Option<Node>],
) -> Result<Option<Break>, AllocError>
    requires fits { (place + 1) + node_count (row children.now) < 2 ^ 32 }
    ensures { IfOk result (λ b. b ≡ least (declarator_breaks is_head how place (row children.now))) }
{
    let declarators = first_below(children);
    let wrong = wrong_declarators(alloc, is_head, how, place + 1, declarators)?;
    Ok(first_of(
        unless(counts_right(is_head, length_of(declarators)), place, 11),
        first_break(11, wrong.as_slice()),
    ))
}

fn parts_of(
    alloc: Global,
    context: &Context<'_>,
    place: u32,
    node: &Node,
) -> Result<Option<Break>, AllocError>
    requires fits { place + node_count (forest_of node.now) < 2 ^ 32 }
    ensures { IfOk result (λ b. b ≡ least (parts_of context.now node.now.kind place node.now.below)) }
{
    let children = node.children();
    match node.kind() {
        NodeKind::Cases => {
            let places = defaults(alloc, place, children)?;
            Ok(behind_first(11, places.as_slice()))
        }
        NodeKind::Members => {
            let places = constructors(alloc, place, children)?;
            Ok(behind_first(11, places.as_slice()))
        }
        NodeKind::VariableDeclaration(how) => {
            declarator_breaks(alloc, context.is_head(), *how, place, children)
        }
        NodeKind::SequenceExpression => {
            Ok(unless(length_of(first_below(children)) > 1, place, 11))
        }
        NodeKind::TemplateLiteral => {
            let texts = length_of(first_below(children));
            let values = length_of(first_below(behind(children)));
            Ok(unless(texts == values + 1, place, 11))
        }
        NodeKind::Parameters | NodeKind::Elements | NodeKind::Properties => {
            let places = early_rests(alloc, place, children)?;
            Ok(first_break(11, places.as_slice()))
        }
        NodeKind::TryStatement => Ok(unless(has_handler_or_finalizer(children), place, 11)),
        _ => Ok(None),
    }
}

/// Nodes have the parts that the grammar asks for, and no declaration stands alone as a body.
pub(crate) fn rule_11(
    alloc: Global,
    context: &Context<'_>,
    place: u32,
    node: &Node,
) -> Result<Option<Break>, AllocError>
    requires fits { place + node_count (forest_of node.now) < 2 ^ 32 }
    ensures { IfOk result (λ b. b ≡ least (rule_11 context.now node.now.kind place node.now.below)) }
{
    let parts = parts_of(alloc, context, place, node)?;
    Ok(first_of(
        unless(
            !(context.is_alone() && is_declaration(node.kind())),
            place,
            11,
        ),
        parts,
    ))
}
