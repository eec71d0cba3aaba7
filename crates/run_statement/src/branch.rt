// Statements that choose (ECMA-262 14.6, 14.12, 14.15).
ghost use Rattle.std.specs.Prelude.{◌≡◌, [], IfOk};
ghost use Rattle.js_syntax.specs.Node.{row};
ghost use Rattle.js_syntax.specs.declared.node_kind.NodeKind.{NodeKind as Kind};
ghost use Rattle.js_meaning.specs.State.{bind, choose, with_value};
ghost use Rattle.js_meaning.specs.Operator.{truthy};
ghost use Rattle.js_meaning.specs.Node.{run, matches, now, need, may, ask_maybe};
ghost use Rattle.js_meaning.specs.Statement.{after_switch, after_block, try_does};
ghost use Rattle.js_meaning.specs.Meaning.{does, eval};
ghost use Rattle.js_meaning.specs.Host.{Enter};
ghost use Rattle.run_value.specs.View.{value_of};
ghost use Rattle.run_world.specs.World.{at};
ghost use Rattle.run_plan.specs.Frame.{meaning, maybe_meaning, plans};

use js_tree::Node;
use run_plan::{
    AfterCompletion, AfterStatement, Ask, Front, Labels, NodeRef, Plan, Wanted, asks, asks_first,
    find_case, first_field, replies, then_completion, then_statement, uncovered,
};
use run_scope::enter_block;
use run_value::{Env, Plain, Value};
use run_world::{World, gives};
use std::alloc::{AllocError, Global};

fn if_plan<'a>(
    alloc: Global,
    test: &'a Node,
    taken: &'a Node,
    other: Option<NodeRef<'a>>,
    labels: Labels<'a>,
    env: Env<'a>,
) -> Result<Plan<'a>, AllocError>
    ensures { IfOk result (λ p. (E : Enter) → plans E p ≡ with_value (meaning E test.now now env.entry) (λ v. choose (truthy v) (meaning E taken.now (run labels.entry) env.entry) (ask_maybe (maybe_meaning E other.entry) (run labels.entry) env.entry))) }
{
    let around = env.copy()?;
    let plan = asks(alloc, test, Ask::Value(Wanted::Itself), around)?;
    then_statement(
        alloc,
        plan,
        AfterStatement::If(NodeRef::new(taken), other, labels, env),
    )
}

// What stands behind `else` is in these fields, or left out.
#[tactic(auto, unfolding(js_meaning::specs::Node::may, js_meaning::specs::Meaning::eval))]
fn if_behind_taken<'a>(
    alloc: Global,
    test: &'a Node,
    taken: &'a Node,
    fields: &'a [Option<Node>],
    labels: Labels<'a>,
    env: Env<'a>,
) -> Result<Plan<'a>, AllocError>
    ensures { IfOk result (λ p. (E : Enter) → plans E p ≡ may (eval E (row fields.now)) (λ d r. with_value (meaning E test.now now env.entry) (λ v. choose (truthy v) (meaning E taken.now (run labels.entry) env.entry) (ask_maybe d (run labels.entry) env.entry)))) }
{
    match first_field(fields) {
        Front::Node(other, _) => {
            if_plan(alloc, test, taken, Some(NodeRef::new(other)), labels, env)
        }
        Front::Absent(_) => if_plan(alloc, test, taken, None, labels, env),
        Front::End => uncovered(alloc),
    }
}

#[tactic(auto, unfolding(js_meaning::specs::Node::need, js_meaning::specs::Meaning::eval))]
fn if_behind_test<'a>(
    alloc: Global,
    test: &'a Node,
    fields: &'a [Option<Node>],
    labels: Labels<'a>,
    env: Env<'a>,
) -> Result<Plan<'a>, AllocError>
    ensures { IfOk result (λ p. (E : Enter) → plans E p ≡ need (eval E (row fields.now)) (λ c r. may r (λ d r. with_value (meaning E test.now now env.entry) (λ v. choose (truthy v) (c (run labels.entry) env.entry) (ask_maybe d (run labels.entry) env.entry))))) }
{
    match first_field(fields) {
        Front::Node(taken, others) => if_behind_taken(alloc, test, taken, others, labels, env),
        Front::Absent(_) => uncovered(alloc),
        Front::End => uncovered(alloc),
    }
}

/// `if` (14.6).
#[tactic(auto, unfolding(js_meaning::specs::Node::need, js_meaning::specs::Meaning::eval))]
pub(crate) fn enter_if<'a>(
    alloc: Global,
    nodes: &'a [Option<Node>],
    labels: Labels<'a>,
    env: Env<'a>,
) -> Result<Plan<'a>, AllocError>
    ensures { IfOk result (λ p. (E : Enter) → plans E p ≡ does E Kind.IfStatement (row nodes.now) (eval E (row nodes.now)) (run labels.entry) env.entry) }
{
    match first_field(nodes) {
        Front::Node(test, others) => if_behind_test(alloc, test, others, labels, env),
        Front::Absent(_) => uncovered(alloc),
        Front::End => uncovered(alloc),
    }
}

fn switch_plan<'a>(
    alloc: Global,
    value: &'a Node,
    cases: &'a Node,
    env: Env<'a>,
) -> Result<Plan<'a>, AllocError>
    ensures { IfOk result (λ p. (E : Enter) → plans E p ≡ with_value (meaning E value.now now env.entry) (λ v. bind (meaning E cases.now (matches v) env.entry) after_switch)) }
{
    let around = env.copy()?;
    let plan = asks(alloc, value, Ask::Value(Wanted::Itself), around)?;
    then_statement(
        alloc,
        plan,
        AfterStatement::Switch(NodeRef::new(cases), env),
    )
}

// The cases stand first in these fields.
#[tactic(auto, unfolding(js_meaning::specs::Node::need, js_meaning::specs::Meaning::eval))]
fn switch_behind_value<'a>(
    alloc: Global,
    value: &'a Node,
    fields: &'a [Option<Node>],
    env: Env<'a>,
) -> Result<Plan<'a>, AllocError>
    ensures { IfOk result (λ p. (E : Enter) → plans E p ≡ need (eval E (row fields.now)) (λ cs r. with_value (meaning E value.now now env.entry) (λ v. bind (cs (matches v) env.entry) after_switch))) }
{
    match first_field(fields) {
        Front::Node(cases, _) => switch_plan(alloc, value, cases, env),
        Front::Absent(_) => uncovered(alloc),
        Front::End => uncovered(alloc),
    }
}

/// `switch` (14.12).
#[tactic(auto, unfolding(js_meaning::specs::Node::need, js_meaning::specs::Meaning::eval))]
pub(crate) fn enter_switch<'a>(
    alloc: Global,
    nodes: &'a [Option<Node>],
    labels: Labels<'a>,
    env: Env<'a>,
) -> Result<Plan<'a>, AllocError>
    ensures { IfOk result (λ p. (E : Enter) → plans E p ≡ does E Kind.SwitchStatement (row nodes.now) (eval E (row nodes.now)) (run labels.entry) env.entry) }
{
    match first_field(nodes) {
        Front::Node(value, others) => switch_behind_value(alloc, value, others, env),
        Front::Absent(_) => uncovered(alloc),
        Front::End => uncovered(alloc),
    }
}

/// The cases of a `switch` for a value.
pub fn enter_cases<'a>(
    world: &mut World<'a>,
    alloc: Global,
    nodes: &'a [Option<Node>],
    value: Value<'a>,
    env: Env<'a>,
) -> Result<Plan<'a>, AllocError>
    ensures does { IfOk result (λ p. (E : Enter) → at world.old (does E Kind.Cases (row nodes.now) (eval E (row nodes.now)) (matches (value_of value.entry)) env.entry) ≡ at world.new (plans E p)) }
{
    let env = enter_block(world, alloc, nodes, env)?;
    match env {
        Some(env) => find_case(alloc, nodes, value, None, env),
        None => uncovered(alloc),
    }
}

/// Whether a case is the one (14.12.3); the default says undefined.
#[tactic(auto, unfolding(js_meaning::specs::Node::may, js_meaning::specs::Meaning::eval))]
pub fn test_case<'a>(
    alloc: Global,
    nodes: &'a [Option<Node>],
    value: Value<'a>,
    env: Env<'a>,
) -> Result<Plan<'a>, AllocError>
    ensures { IfOk result (λ p. (E : Enter) → plans E p ≡ does E Kind.SwitchCase (row nodes.now) (eval E (row nodes.now)) (matches (value_of value.entry)) env.entry) }
{
    match nodes {
        [Some(test), ..] => {
            let plan = asks(alloc, test, Ask::Value(Wanted::Itself), env)?;
            then_statement(alloc, plan, AfterStatement::CaseTest(value))
        }
        [None, ..] => replies(alloc, gives(Value::Plain(Plain::Undefined))),
        [] => uncovered(alloc),
    }
}

/// The statements of a case.
#[tactic(auto, unfolding(js_meaning::specs::Node::may, js_meaning::specs::Meaning::eval))]
pub(crate) fn enter_case<'a>(
    alloc: Global,
    nodes: &'a [Option<Node>],
    labels: Labels<'a>,
    env: Env<'a>,
) -> Result<Plan<'a>, AllocError>
    ensures { IfOk result (λ p. (E : Enter) → plans E p ≡ does E Kind.SwitchCase (row nodes.now) (eval E (row nodes.now)) (run labels.entry) env.entry) }
{
    match first_field(nodes) {
        Front::Node(_, others) => asks_first(alloc, others, Ask::Run(Labels::none()), env),
        Front::Absent(others) => asks_first(alloc, others, Ask::Run(Labels::none()), env),
        Front::End => uncovered(alloc),
    }
}

// The block of a `try`, and its handler.
fn try_block<'a>(
    alloc: Global,
    block: &'a Node,
    handler: Option<NodeRef<'a>>,
    env: Env<'a>,
) -> Result<Plan<'a>, AllocError>
    ensures { IfOk result (λ p. (E : Enter) → plans E p ≡ bind (meaning E block.now (run []) env.entry) (after_block (maybe_meaning E handler.entry) env.entry)) }
{
    let inside = env.copy()?;
    let plan = asks(alloc, block, Ask::Run(Labels::none()), inside)?;
    then_completion(alloc, plan, AfterCompletion::Handler(handler, env))
}

fn try_plan<'a>(
    alloc: Global,
    block: &'a Node,
    handler: Option<NodeRef<'a>>,
    finalizer: Option<NodeRef<'a>>,
    env: Env<'a>,
) -> Result<Plan<'a>, AllocError>
    ensures { IfOk result (λ p. (E : Enter) → plans E p ≡ try_does (meaning E block.now) (maybe_meaning E handler.entry) (maybe_meaning E finalizer.entry) env.entry) }
{
    let around = env.copy()?;
    let plan = try_block(alloc, block, handler, around)?;
    then_completion(alloc, plan, AfterCompletion::Finalizer(finalizer, env))
}

// What stands behind the handler of a `try`, or in its place.
#[tactic(auto, unfolding(js_meaning::specs::Node::may, js_meaning::specs::Meaning::eval))]
fn try_finalizer<'a>(
    alloc: Global,
    block: &'a Node,
    handler: Option<NodeRef<'a>>,
    fields: &'a [Option<Node>],
    env: Env<'a>,
) -> Result<Plan<'a>, AllocError>
    ensures { IfOk result (λ p. (E : Enter) → plans E p ≡ may (eval E (row fields.now)) (λ f r. try_does (meaning E block.now) (maybe_meaning E handler.entry) f env.entry)) }
{
    match first_field(fields) {
        Front::Node(finalizer, _) => {
            try_plan(alloc, block, handler, Some(NodeRef::new(finalizer)), env)
        }
        Front::Absent(_) => try_plan(alloc, block, handler, None, env),
        Front::End => uncovered(alloc),
    }
}

#[tactic(auto, unfolding(js_meaning::specs::Node::may, js_meaning::specs::Meaning::eval))]
fn try_handler<'a>(
    alloc: Global,
    block: &'a Node,
    fields: &'a [Option<Node>],
    env: Env<'a>,
) -> Result<Plan<'a>, AllocError>
    ensures { IfOk result (λ p. (E : Enter) → plans E p ≡ may (eval E (row fields.now)) (λ h r. may r (λ f r. try_does (meaning E block.now) h f env.entry))) }
{
    match first_field(fields) {
        Front::Node(handler, others) => {
            try_finalizer(alloc, block, Some(NodeRef::new(handler)), others, env)
        }
        Front::Absent(others) => try_finalizer(alloc, block, None, others, env),
        Front::End => uncovered(alloc),
    }
}

/// `try` (14.15).
#[tactic(auto, unfolding(js_meaning::specs::Node::need, js_meaning::specs::Meaning::eval))]
pub(crate) fn enter_try<'a>(
    alloc: Global,
    nodes: &'a [Option<Node>],
    labels: Labels<'a>,
    env: Env<'a>,
) -> Result<Plan<'a>, AllocError>
    ensures { IfOk result (λ p. (E : Enter) → plans E p ≡ does E Kind.TryStatement (row nodes.now) (eval E (row nodes.now)) (run labels.entry) env.entry) }
{
    match first_field(nodes) {
        Front::Node(block, others) => try_handler(alloc, block, others, env),
        Front::Absent(_) => uncovered(alloc),
        Front::End => uncovered(alloc),
    }
}
