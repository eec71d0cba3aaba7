// Declarations and parameters (ECMA-262 14.3, 10.2.11, 14.15.2).
ghost use Rattle.std.specs.Prelude.{◌≡◌, [], None, IfOk};
ghost use Rattle.js_syntax.specs.Node.{row};
ghost use Rattle.js_syntax.specs.declared.node_kind.NodeKind.{NodeKind as Kind};
ghost use Rattle.js_meaning.specs.State.{seq, with_value};
ghost use Rattle.js_meaning.specs.Node.{run, take, declares, now, may, need};
ghost use Rattle.js_meaning.specs.Statement.{declarator, take_maybe};
ghost use Rattle.js_meaning.specs.Meaning.{does, eval};
ghost use Rattle.js_meaning.specs.Host.{Enter};
ghost use Rattle.run_value.specs.View.{value_of};
ghost use Rattle.run_world.specs.World.{at};
ghost use Rattle.run_plan.specs.Frame.{meaning, maybe_meaning, plans};

use js_syntax::VariableKind;
use js_tree::{Ident, Node};
use run_plan::{
    AfterNormal, AfterStatement, Ask, Front, NodeRef, Plan, Wanted, asks, completes, first_field,
    then_normal, then_statement, uncovered,
};
use run_scope::enter_catch;
use run_value::{Env, Plain, Value};
use run_world::{Completion, World};
use std::alloc::{AllocError, Global};

/// A declared name takes its value.
pub fn take_name<'a>(
    world: &mut World<'a>,
    alloc: Global,
    name: &Ident,
    nodes: &'a [Option<Node>],
    value: Value<'a>,
    env: Env<'a>,
) -> Result<Plan<'a>, AllocError>
    ensures does { IfOk result (λ p. (E : Enter) → at world.old (does E (Kind.BindingName name.now) (row nodes.now) (eval E (row nodes.now)) (take (value_of value.entry)) env.entry) ≡ at world.new (plans E p)) }
{
    if world.fill(env.look(name.as_str()), value)? {
        completes(alloc, Completion::Normal)
    } else {
        uncovered(alloc)
    }
}

// A declarator without a value: `let` gives undefined, `var` does nothing.
fn declare_without<'a>(
    alloc: Global,
    how: VariableKind,
    name: &'a Node,
    env: Env<'a>,
) -> Result<Plan<'a>, AllocError>
    ensures { IfOk result (λ p. (E : Enter) → plans E p ≡ declarator how (meaning E name.now) None env.entry) }
{
    match how {
        VariableKind::Var => completes(alloc, Completion::Normal),
        _ => {
            let value = Value::Plain(Plain::Undefined);
            asks(alloc, name, Ask::Take(value), env)
        }
    }
}

fn initial_plan<'a>(
    alloc: Global,
    name: &'a Node,
    value: &'a Node,
    env: Env<'a>,
) -> Result<Plan<'a>, AllocError>
    ensures { IfOk result (λ p. (E : Enter) → plans E p ≡ with_value (meaning E value.now now env.entry) (λ v. meaning E name.now (take v) env.entry)) }
{
    let around = env.copy()?;
    let plan = asks(alloc, value, Ask::Value(Wanted::Itself), around)?;
    then_statement(
        alloc,
        plan,
        AfterStatement::Initial(NodeRef::new(name), env),
    )
}

// The value of a declarator stands first in these fields, or is left out.
#[tactic(auto, unfolding(js_meaning::specs::Node::may, js_meaning::specs::Meaning::eval))]
fn declare_with<'a>(
    alloc: Global,
    how: VariableKind,
    name: &'a Node,
    fields: &'a [Option<Node>],
    env: Env<'a>,
) -> Result<Plan<'a>, AllocError>
    ensures { IfOk result (λ p. (E : Enter) → plans E p ≡ may (eval E (row fields.now)) (λ m r. declarator how (meaning E name.now) m env.entry)) }
{
    match first_field(fields) {
        Front::Node(value, _) => initial_plan(alloc, name, value, env),
        Front::Absent(_) => declare_without(alloc, how, name, env),
        Front::End => uncovered(alloc),
    }
}

/// A declarator (14.3).
#[tactic(auto, unfolding(js_meaning::specs::Node::need, js_meaning::specs::Meaning::eval))]
pub fn enter_declarator<'a>(
    alloc: Global,
    how: VariableKind,
    nodes: &'a [Option<Node>],
    env: Env<'a>,
) -> Result<Plan<'a>, AllocError>
    ensures { IfOk result (λ p. (E : Enter) → plans E p ≡ does E Kind.VariableDeclarator (row nodes.now) (eval E (row nodes.now)) (declares how) env.entry) }
{
    match first_field(nodes) {
        Front::Node(name, others) => declare_with(alloc, how, name, others, env),
        Front::Absent(_) => uncovered(alloc),
        Front::End => uncovered(alloc),
    }
}

fn take_parameter<'a>(
    alloc: Global,
    parameter: Option<NodeRef<'a>>,
    value: Value<'a>,
    env: Env<'a>,
) -> Result<Plan<'a>, AllocError>
    ensures { IfOk result (λ p. (E : Enter) → plans E p ≡ take_maybe (maybe_meaning E parameter.entry) (value_of value.entry) env.entry) }
{
    match parameter {
        Some(parameter) => asks(alloc, parameter.node(), Ask::Take(value), env),
        None => completes(alloc, Completion::Normal),
    }
}

fn caught_plan<'a>(
    alloc: Global,
    parameter: Option<NodeRef<'a>>,
    block: &'a Node,
    value: Value<'a>,
    env: Env<'a>,
) -> Result<Plan<'a>, AllocError>
    ensures { IfOk result (λ p. (E : Enter) → plans E p ≡ seq (take_maybe (maybe_meaning E parameter.entry) (value_of value.entry) env.entry) (meaning E block.now (run []) env.entry)) }
{
    let around = env.copy()?;
    let plan = take_parameter(alloc, parameter, value, around)?;
    then_normal(alloc, plan, AfterNormal::Run(NodeRef::new(block), env))
}

// The block of a catch clause, once its parameter has the value.
#[tactic(auto, unfolding(js_meaning::specs::Node::need, js_meaning::specs::Meaning::eval))]
fn catch_block<'a>(
    alloc: Global,
    parameter: Option<NodeRef<'a>>,
    fields: &'a [Option<Node>],
    value: Value<'a>,
    env: Env<'a>,
) -> Result<Plan<'a>, AllocError>
    ensures { IfOk result (λ p. (E : Enter) → plans E p ≡ need (eval E (row fields.now)) (λ b r. seq (take_maybe (maybe_meaning E parameter.entry) (value_of value.entry) env.entry) (b (run []) env.entry))) }
{
    match first_field(fields) {
        Front::Node(block, _) => caught_plan(alloc, parameter, block, value, env),
        Front::Absent(_) => uncovered(alloc),
        Front::End => uncovered(alloc),
    }
}

// The parameter of a catch clause takes the value, and then the block runs.
#[tactic(auto, unfolding(js_meaning::specs::Node::may, js_meaning::specs::Meaning::eval))]
fn catch_value<'a>(
    alloc: Global,
    nodes: &'a [Option<Node>],
    value: Value<'a>,
    env: Env<'a>,
) -> Result<Plan<'a>, AllocError>
    ensures { IfOk result (λ p. (E : Enter) → plans E p ≡ may (eval E (row nodes.now)) (λ p r. need r (λ b r. seq (take_maybe p (value_of value.entry) env.entry) (b (run []) env.entry)))) }
{
    match first_field(nodes) {
        Front::Node(parameter, others) => {
            catch_block(alloc, Some(NodeRef::new(parameter)), others, value, env)
        }
        Front::Absent(others) => catch_block(alloc, None, others, value, env),
        Front::End => uncovered(alloc),
    }
}

/// A catch clause takes what was thrown (14.15.2).
pub fn enter_catch_clause<'a>(
    world: &mut World<'a>,
    alloc: Global,
    nodes: &'a [Option<Node>],
    value: Value<'a>,
    env: Env<'a>,
) -> Result<Plan<'a>, AllocError>
    ensures does { IfOk result (λ p. (E : Enter) → at world.old (does E Kind.CatchClause (row nodes.now) (eval E (row nodes.now)) (take (value_of value.entry)) env.entry) ≡ at world.new (plans E p)) }
{
    let env = enter_catch(world, alloc, nodes, env)?;
    catch_value(alloc, nodes, value, env)
}
