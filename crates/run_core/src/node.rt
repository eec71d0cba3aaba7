// Any node that is asked something.
ghost use Rattle.std.specs.Prelude.{◌≡◌, IfOk};
ghost use Rattle.js_syntax.specs.Node.{row};
ghost use Rattle.js_meaning.specs.Node.{take, take_all, declares, matches};
ghost use Rattle.js_meaning.specs.Meaning.{does, eval, if_core};
ghost use Rattle.js_meaning.specs.Host.{Enter};
ghost use Rattle.run_value.specs.View.{value_of};
ghost use Rattle.run_world.specs.World.{at, values_of};
ghost use Rattle.run_plan.specs.Ask.{ask_of};
ghost use Rattle.run_plan.specs.Frame.{meaning, plans};

use js_syntax::{NodeKind, VariableKind};
use js_tree::Node;
use run_covered::is_core;
use run_expression::{enter_collection, enter_entry, enter_place, enter_value};
use run_plan::{Ask, Plan, declare_each, discard_ask, give_each, uncovered};
use run_statement::{
    enter_cases, enter_catch_clause, enter_declarator, enter_statement, take_name, test_case,
};
use run_value::{Env, Value};
use run_world::World;
use std::alloc::{AllocError, Global};

// A declared name, or a catch clause.
fn enter_taking<'a>(
    world: &mut World<'a>,
    alloc: Global,
    node: &'a Node,
    value: Value<'a>,
    env: Env<'a>,
) -> Result<Plan<'a>, AllocError>
    ensures does { IfOk result (λ p. (E : Enter) → at world.old (does E node.now.kind node.now.below (eval E node.now.below) (take (value_of value.entry)) env.entry) ≡ at world.new (plans E p)) }
{
    match node.kind() {
        NodeKind::BindingName(name) => {
            take_name(world, alloc, name, node.children(), value, env)
        }
        NodeKind::CatchClause => enter_catch_clause(world, alloc, node.children(), value, env),
        _ => uncovered(alloc),
    }
}

fn enter_parameters<'a>(
    alloc: Global,
    node: &'a Node,
    values: Vec<Value<'a>>,
    env: Env<'a>,
) -> Result<Plan<'a>, AllocError>
    ensures { IfOk result (λ p. (E : Enter) → plans E p ≡ does E node.now.kind node.now.below (eval E node.now.below) (take_all (values_of values.entry.items)) env.entry) }
{
    match node.kind() {
        NodeKind::Parameters => give_each(alloc, node.children(), values, env),
        _ => uncovered(alloc),
    }
}

fn enter_declaring<'a>(
    alloc: Global,
    node: &'a Node,
    how: VariableKind,
    env: Env<'a>,
) -> Result<Plan<'a>, AllocError>
    ensures { IfOk result (λ p. (E : Enter) → plans E p ≡ does E node.now.kind node.now.below (eval E node.now.below) (declares how) env.entry) }
{
    match node.kind() {
        NodeKind::Declarators => declare_each(alloc, how, node.children(), env),
        NodeKind::VariableDeclarator => enter_declarator(alloc, how, node.children(), env),
        _ => uncovered(alloc),
    }
}

// The cases of a switch, or one of them.
fn enter_matching<'a>(
    world: &mut World<'a>,
    alloc: Global,
    node: &'a Node,
    value: Value<'a>,
    env: Env<'a>,
) -> Result<Plan<'a>, AllocError>
    ensures does { IfOk result (λ p. (E : Enter) → at world.old (does E node.now.kind node.now.below (eval E node.now.below) (matches (value_of value.entry)) env.entry) ≡ at world.new (plans E p)) }
{
    match node.kind() {
        NodeKind::Cases => enter_cases(world, alloc, node.children(), value, env),
        NodeKind::SwitchCase => test_case(alloc, node.children(), value, env),
        _ => uncovered(alloc),
    }
}

fn enter_covered<'a>(
    world: &mut World<'a>,
    alloc: Global,
    node: &'a Node,
    ask: Ask<'a>,
    env: Env<'a>,
) -> Result<Plan<'a>, AllocError>
    ensures does { IfOk result (λ p. (E : Enter) → at world.old (does E node.now.kind node.now.below (eval E node.now.below) (ask_of ask.entry) env.entry) ≡ at world.new (plans E p)) }
{
    match ask {
        Ask::Run(labels) => enter_statement(world, alloc, node, labels, env),
        Ask::Value(wanted) => enter_value(world, alloc, node, wanted, env),
        Ask::Place => enter_place(world, alloc, node, env),
        Ask::Take(value) => enter_taking(world, alloc, node, value, env),
        Ask::TakeAll(values) => enter_parameters(alloc, node, values, env),
        Ask::Declares(how) => enter_declaring(alloc, node, how, env),
        Ask::Collect => enter_collection(alloc, node, env),
        Ask::Entry => enter_entry(alloc, node, env),
        Ask::Matches(value) => enter_matching(world, alloc, node, value, env),
    }
}

// Nothing is said of a node that isn't core.
fn enter_if_core<'a>(
    world: &mut World<'a>,
    alloc: Global,
    core: bool,
    node: &'a Node,
    ask: Ask<'a>,
    env: Env<'a>,
) -> Result<Plan<'a>, AllocError>
    ensures does { IfOk result (λ p. (E : Enter) → at world.old (if_core core (does E node.now.kind node.now.below (eval E node.now.below)) (ask_of ask.entry) env.entry) ≡ at world.new (plans E p)) }
{
    if core {
        enter_covered(world, alloc, node, ask, env)
    } else {
        discard_ask(ask);
        uncovered(alloc)
    }
}

/// The first step of a node that is asked this.
pub fn enter_node<'a>(
    world: &mut World<'a>,
    alloc: Global,
    node: &'a Node,
    ask: Ask<'a>,
    env: Env<'a>,
) -> Result<Plan<'a>, AllocError>
    ensures does { IfOk result (λ p. (E : Enter) → at world.old (meaning E node.now (ask_of ask.entry) env.entry) ≡ at world.new (plans E p)) }
{
    let core = is_core(node.kind());
    enter_if_core(world, alloc, core, node, ask, env)
}
