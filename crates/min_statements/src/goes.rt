// What goes.
ghost use Rattle.std.specs.Prelude.{◌≡◌, [], ◌∷◌, false};
ghost use Rattle.js_syntax.specs.Node.{row, forest_of};
ghost use Rattle.js_syntax.specs.declared.node_kind.NodeKind.TheVariants.{VariableDeclarator as variable_declarator};
ghost use Rattle.min_pass.specs.Pass as pass;
ghost use Rattle.rules.specs.DeadCode.Rules as rules;

use crate::blocks::idles;
use crate::facts::{Facts, Where};
use crate::names::{function_is_unused, scope_of, symbol_of, variable_is_unused};
use js_effects::none_has_side_effects;
use js_syntax::{FunctionKind, NodeKind, VariableKind};
use js_tree::Node;

fn is_given(value: &[Option<Node>]) -> bool
    ensures { result ≡ pass.is_given (row value.now) }
{
    match value {
        [Some(_), ..] => true,
        [None, ..] => false,
        [] => false,
    }
}

fn is_quiet(facts: &Facts, at: Where, value: &[Option<Node>]) -> bool
    ensures { result ≡ rules.is_quiet facts.now at (row value.now) }
{
    none_has_side_effects(value, facts.bound, at.surroundings()) && !(at.in_with && is_given(value))
}

#[tactic(auto, using(crate::proofs::Named::declares))]
fn declares_unused(facts: &Facts, at: Where, how: VariableKind, children: &[Option<Node>]) -> bool
    ensures { result ≡ rules.declarator_goes facts.now at how variable_declarator (row children.now) }
{
    match children {
        [Some(name), value @ ..] => {
            variable_is_unused(facts, scope_of(at, how), symbol_of(name))
                && is_quiet(facts, at, value)
        }
        [None, ..] => false,
        [] => false,
    }
}

pub(crate) fn declarator_goes(facts: &Facts, at: Where, how: VariableKind, node: &Node) -> bool
    ensures { result ≡ rules.declarator_goes facts.now at how node.now.kind node.now.below }
{
    match node.kind() {
        NodeKind::VariableDeclarator => declares_unused(facts, at, how, node.children()),
        _ => false,
    }
}

fn child_goes(facts: &Facts, at: Where, how: VariableKind, child: &Option<Node>) -> bool
    ensures { result ≡ rules.one_goes facts.now at how (row (child.now ∷ [])) }
{
    match child {
        Some(node) => declarator_goes(facts, at, how, node),
        None => false,
    }
}

fn child_stays(facts: &Facts, at: Where, how: VariableKind, child: &Option<Node>) -> bool
    ensures { result ≡ rules.one_stays facts.now at how (row (child.now ∷ [])) }
{
    match child {
        Some(node) => !declarator_goes(facts, at, how, node),
        None => false,
    }
}

fn one_goes(facts: &Facts, at: Where, how: VariableKind, declarators: &[Option<Node>]) -> bool
    ensures { result ≡ rules.one_goes facts.now at how (row declarators.now) }
{
    for child in declarators {
        if child_goes(facts, at, how, child) {
            return true;
        }
    }
    false
}

fn one_stays(facts: &Facts, at: Where, how: VariableKind, declarators: &[Option<Node>]) -> bool
    ensures { result ≡ rules.one_stays facts.now at how (row declarators.now) }
{
    for child in declarators {
        if child_stays(facts, at, how, child) {
            return true;
        }
    }
    false
}

fn list_goes(facts: &Facts, at: Where, how: VariableKind, list: &Node) -> bool
    ensures { result ≡ rules.declaration_goes facts.now at how (forest_of list.now) }
{
    match list.kind() {
        NodeKind::Declarators => {
            one_goes(facts, at, how, list.children()) && !one_stays(facts, at, how, list.children())
        }
        _ => false,
    }
}

fn declaration_goes(facts: &Facts, at: Where, how: VariableKind, children: &[Option<Node>]) -> bool
    ensures { result ≡ rules.declaration_goes facts.now at how (row children.now) }
{
    match children {
        [Some(list), ..] => list_goes(facts, at, how, list),
        [None, ..] => false,
        [] => false,
    }
}

#[tactic(auto, using(crate::proofs::Named::names))]
fn named_goes(facts: &Facts, at: Where, children: &[Option<Node>]) -> bool
    ensures { result ≡ rules.function_goes facts.now at (row children.now) }
{
    match children {
        [Some(name), ..] => function_is_unused(facts, at, symbol_of(name)),
        [None, ..] => false,
        [] => false,
    }
}

fn function_goes(facts: &Facts, at: Where, how: FunctionKind, node: &Node) -> bool
    ensures declaration { how ≡ FunctionKind.Declaration → result ≡ rules.function_goes facts.now at node.now.below }
    ensures expression { how ≡ FunctionKind.Expression → result ≡ false }
    ensures arrow { how ≡ FunctionKind.Arrow → result ≡ false }
{
    match how {
        FunctionKind::Declaration => named_goes(facts, at, node.children()),
        FunctionKind::Expression | FunctionKind::Arrow => false,
    }
}

pub(crate) fn is_silent_statement(facts: &Facts, at: Where, node: &Node) -> bool
    ensures { result ≡ rules.is_silent_statement facts.now at node.now.kind node.now.below }
{
    matches!(node.kind(), NodeKind::ExpressionStatement)
        && none_has_side_effects(node.children(), facts.bound, at.surroundings())
}

pub(crate) fn item_goes(facts: &Facts, at: Where, node: &Node) -> bool
    ensures { result ≡ rules.item_goes facts.now at node.now.kind node.now.below }
{
    match node.kind() {
        NodeKind::EmptyStatement => true,
        NodeKind::BlockStatement => idles(node.children()),
        NodeKind::LabeledStatement(_) => idles(node.children()),
        NodeKind::ExpressionStatement => is_silent_statement(facts, at, node),
        NodeKind::Function { kind, .. } => function_goes(facts, at, *kind, node),
        NodeKind::VariableDeclaration(how) => declaration_goes(facts, at, *how, node.children()),
        _ => false,
    }
}

fn list_has_dead(facts: &Facts, at: Where, how: VariableKind, list: &Node) -> bool
    ensures { result ≡ rules.declaration_has_dead facts.now at how (forest_of list.now) }
{
    match list.kind() {
        NodeKind::Declarators => one_goes(facts, at, how, list.children()),
        _ => false,
    }
}

pub(crate) fn declaration_has_dead(
    facts: &Facts,
    at: Where,
    how: VariableKind,
    children: &[Option<Node>],
) -> bool
    ensures { result ≡ rules.declaration_has_dead facts.now at how (row children.now) }
{
    match children {
        [Some(list), ..] => list_has_dead(facts, at, how, list),
        [None, ..] => false,
        [] => false,
    }
}

pub(crate) fn item_has_dead(facts: &Facts, at: Where, node: &Node) -> bool
    ensures { result ≡ rules.item_has_dead facts.now at node.now.kind node.now.below }
{
    match node.kind() {
        NodeKind::VariableDeclaration(how) => declaration_has_dead(
            facts,
            at,
            *how,
            node.children(),
        ),
        _ => item_goes(facts, at, node),
    }
}

pub(crate) fn child_has_dead(facts: &Facts, at: Where, child: &Option<Node>) -> bool
    ensures { result ≡ rules.has_dead facts.now at (row (child.now ∷ [])) }
{
    match child {
        Some(node) => item_has_dead(facts, at, node),
        None => false,
    }
}

// Whether anything of a list of statements goes.
pub(crate) fn has_dead(facts: &Facts, at: Where, items: &[Option<Node>]) -> bool
    ensures { result ≡ rules.has_dead facts.now at (row items.now) }
{
    for item in items {
        if child_has_dead(facts, at, item) {
            return true;
        }
    }
    false
}
