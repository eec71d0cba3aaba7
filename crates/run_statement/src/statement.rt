// A node that is asked to run (ECMA-262 14, 16.2).
ghost use Rattle.std.specs.Prelude.{◌≡◌, IfOk};
ghost use Rattle.js_syntax.specs.Node.{row};
ghost use Rattle.js_syntax.specs.declared.node_kind.NodeKind.{NodeKind as Kind};
ghost use Rattle.js_meaning.specs.Node.{run};
ghost use Rattle.js_meaning.specs.Meaning.{does, eval};
ghost use Rattle.js_meaning.specs.Host.{Enter};
ghost use Rattle.run_world.specs.World.{at};
ghost use Rattle.run_plan.specs.Frame.{plans};

use crate::branch::{enter_case, enter_if, enter_switch, enter_try};
use crate::loops::{enter_do, enter_for};
use crate::parts::asks_first_maybe;
use crate::simple::{
    breaks, continues, enter_default, enter_expression_statement, enter_labeled, enter_return,
    enter_throw,
};
use js_syntax::{FunctionKind, NodeKind};
use js_tree::Node;
use run_plan::{Ask, Labels, Loop, Plan, asks_first, completes, run_each, test_loop, uncovered};
use run_scope::enter_block;
use run_value::Env;
use run_world::{Completion, World};
use std::alloc::{AllocError, Global};

// A block (14.2).
fn enter_block_statement<'a>(
    world: &mut World<'a>,
    alloc: Global,
    nodes: &'a [Option<Node>],
    labels: Labels<'a>,
    env: Env<'a>,
) -> Result<Plan<'a>, AllocError>
    ensures does { IfOk result (λ p. (E : Enter) → at world.old (does E Kind.BlockStatement (row nodes.now) (eval E (row nodes.now)) (run labels.entry) env.entry) ≡ at world.new (plans E p)) }
{
    let env = enter_block(world, alloc, nodes, env)?;
    match env {
        Some(env) => asks_first(alloc, nodes, Ask::Run(labels), env),
        None => uncovered(alloc),
    }
}

/// The first step of a node that is asked to run under labels. Most declarations and items of modules
/// have nothing to do when they are reached.
pub fn enter_statement<'a>(
    world: &mut World<'a>,
    alloc: Global,
    node: &'a Node,
    labels: Labels<'a>,
    env: Env<'a>,
) -> Result<Plan<'a>, AllocError>
    ensures does { IfOk result (λ p. (E : Enter) → at world.old (does E node.now.kind node.now.below (eval E node.now.below) (run labels.entry) env.entry) ≡ at world.new (plans E p)) }
{
    let nodes = node.children();
    match node.kind() {
        NodeKind::Statements => run_each(alloc, labels, nodes, env),
        NodeKind::Directive(_)
        | NodeKind::EmptyStatement
        | NodeKind::DebuggerStatement
        | NodeKind::Function {
            kind: FunctionKind::Declaration,
            ..
        }
        | NodeKind::ImportDeclaration(_)
        | NodeKind::ExportAllDeclaration { .. } => completes(alloc, Completion::Normal),
        NodeKind::ExpressionStatement => enter_expression_statement(alloc, nodes, labels, env),
        NodeKind::BlockStatement => enter_block_statement(world, alloc, nodes, labels, env),
        NodeKind::IfStatement => enter_if(alloc, nodes, labels, env),
        NodeKind::ReturnStatement => enter_return(alloc, nodes, labels, env),
        NodeKind::ThrowStatement => enter_throw(alloc, nodes, labels, env),
        NodeKind::BreakStatement(label) => breaks(alloc, label),
        NodeKind::ContinueStatement(label) => continues(alloc, label),
        NodeKind::LabeledStatement(label) => enter_labeled(alloc, label, nodes, labels, env),
        NodeKind::WhileStatement => test_loop(alloc, Loop::While, nodes, labels, env),
        NodeKind::DoWhileStatement => enter_do(alloc, nodes, labels, env),
        NodeKind::ForStatement => enter_for(world, alloc, nodes, labels, env),
        NodeKind::SwitchStatement => enter_switch(alloc, nodes, labels, env),
        NodeKind::SwitchCase => enter_case(alloc, nodes, labels, env),
        NodeKind::TryStatement => enter_try(alloc, nodes, labels, env),
        NodeKind::VariableDeclaration(how) => { asks_first(alloc, nodes, Ask::Declares(*how), env) }
        NodeKind::FunctionBody => asks_first(alloc, nodes, Ask::Run(Labels::none()), env),
        NodeKind::ExportNamedDeclaration(_) => {
            asks_first_maybe(alloc, nodes, Ask::Run(Labels::none()), env)
        }
        NodeKind::ExportDefaultDeclaration => enter_default(alloc, nodes, labels, env),
        _ => uncovered(alloc),
    }
}
