// Operators, calls and conditions (ECMA-262 13.3 to 13.15).
ghost use Rattle.std.specs.Prelude.{◌≡◌, false, IfOk};
ghost use Rattle.js_syntax.specs.Node.{row};
ghost use Rattle.js_syntax.specs.declared.node_kind.NodeKind.{NodeKind as Kind};
ghost use Rattle.js_meaning.specs.State.{choose, with_value, with_receiver, with_all, with_place};
ghost use Rattle.js_meaning.specs.Operator.{truthy};
ghost use Rattle.js_meaning.specs.Expression.{wanted_by, binary_value, logical_value, assign, call_value, construct_value};
ghost use Rattle.js_meaning.specs.Node.{value, now, place, collect, to_call};
ghost use Rattle.js_meaning.specs.Meaning.{does, eval};
ghost use Rattle.js_meaning.specs.Host.{Enter};
ghost use Rattle.run_plan.specs.Ask.{wanted_of};
ghost use Rattle.run_plan.specs.Frame.{meaning, plans};

use crate::fields::{Pair, Triple, first_three, first_two};
use js_syntax::{
    AssignmentOperator, BinaryOperator, LogicalOperator, UnaryOperator, UpdateOperator,
};
use js_tree::Node;
use run_plan::{
    AfterOperand, AfterPlace, Ask, Front, NodeRef, Plan, Wanted, asks, first_field, then_operand,
    then_place, uncovered,
};
use run_value::Env;
use std::alloc::{AllocError, Global};

fn wanted_by(operator: UnaryOperator) -> Wanted
    ensures { wanted_of result ≡ wanted_by operator }
{
    match operator {
        UnaryOperator::Typeof => Wanted::ForTypeof,
        _ => Wanted::Itself,
    }
}

/// A unary operator.
#[tactic(auto, unfolding(js_meaning::specs::Node::need, js_meaning::specs::Meaning::eval))]
pub(crate) fn enter_unary<'a>(
    alloc: Global,
    operator: UnaryOperator,
    nodes: &'a [Option<Node>],
    wanted: Wanted,
    env: Env<'a>,
) -> Result<Plan<'a>, AllocError>
    ensures { IfOk result (λ p. (E : Enter) → plans E p ≡ does E (Kind.UnaryExpression operator) (row nodes.now) (eval E (row nodes.now)) (value (wanted_of wanted)) env.entry) }
{
    match first_field(nodes) {
        Front::Node(operand, _) => {
            let plan = asks(alloc, operand, Ask::Value(wanted_by(operator)), env)?;
            then_operand(alloc, plan, AfterOperand::Unary(operator))
        }
        Front::Absent(_) => uncovered(alloc),
        Front::End => uncovered(alloc),
    }
}

/// An increment or a decrement.
#[tactic(auto, unfolding(js_meaning::specs::Node::need, js_meaning::specs::Meaning::eval))]
pub(crate) fn enter_update<'a>(
    alloc: Global,
    operator: UpdateOperator,
    prefix: bool,
    nodes: &'a [Option<Node>],
    wanted: Wanted,
    env: Env<'a>,
) -> Result<Plan<'a>, AllocError>
    ensures { IfOk result (λ p. (E : Enter) → plans E p ≡ does E (Kind.UpdateExpression operator prefix) (row nodes.now) (eval E (row nodes.now)) (value (wanted_of wanted)) env.entry) }
{
    match first_field(nodes) {
        Front::Node(target, _) => {
            let plan = asks(alloc, target, Ask::Place, env)?;
            then_place(alloc, plan, AfterPlace::Update(operator, prefix))
        }
        Front::Absent(_) => uncovered(alloc),
        Front::End => uncovered(alloc),
    }
}

fn binary_plan<'a>(
    alloc: Global,
    operator: BinaryOperator,
    left: &'a Node,
    right: &'a Node,
    env: Env<'a>,
) -> Result<Plan<'a>, AllocError>
    ensures { IfOk result (λ p. (E : Enter) → plans E p ≡ with_value (meaning E left.now now env.entry) (λ v. with_value (meaning E right.now now env.entry) (binary_value E operator v))) }
{
    let around = env.copy()?;
    let plan = asks(alloc, left, Ask::Value(Wanted::Itself), around)?;
    then_operand(
        alloc,
        plan,
        AfterOperand::Left(operator, NodeRef::new(right), env),
    )
}

/// A binary operator: its left side comes first.
pub(crate) fn enter_binary<'a>(
    alloc: Global,
    operator: BinaryOperator,
    nodes: &'a [Option<Node>],
    wanted: Wanted,
    env: Env<'a>,
) -> Result<Plan<'a>, AllocError>
    ensures { IfOk result (λ p. (E : Enter) → plans E p ≡ does E (Kind.BinaryExpression operator) (row nodes.now) (eval E (row nodes.now)) (value (wanted_of wanted)) env.entry) }
{
    match first_two(nodes) {
        Pair::Both(left, right) => binary_plan(alloc, operator, left, right, env),
        Pair::Fewer => uncovered(alloc),
    }
}

fn logical_plan<'a>(
    alloc: Global,
    operator: LogicalOperator,
    left: &'a Node,
    right: &'a Node,
    env: Env<'a>,
) -> Result<Plan<'a>, AllocError>
    ensures { IfOk result (λ p. (E : Enter) → plans E p ≡ with_value (meaning E left.now now env.entry) (λ v. logical_value operator v (meaning E right.now now env.entry))) }
{
    let around = env.copy()?;
    let plan = asks(alloc, left, Ask::Value(Wanted::Itself), around)?;
    then_operand(
        alloc,
        plan,
        AfterOperand::Logical(operator, NodeRef::new(right), env),
    )
}

/// A logical operator.
pub(crate) fn enter_logical<'a>(
    alloc: Global,
    operator: LogicalOperator,
    nodes: &'a [Option<Node>],
    wanted: Wanted,
    env: Env<'a>,
) -> Result<Plan<'a>, AllocError>
    ensures { IfOk result (λ p. (E : Enter) → plans E p ≡ does E (Kind.LogicalExpression operator) (row nodes.now) (eval E (row nodes.now)) (value (wanted_of wanted)) env.entry) }
{
    match first_two(nodes) {
        Pair::Both(left, right) => logical_plan(alloc, operator, left, right, env),
        Pair::Fewer => uncovered(alloc),
    }
}

fn assignment_plan<'a>(
    alloc: Global,
    operator: AssignmentOperator,
    target: &'a Node,
    right: &'a Node,
    env: Env<'a>,
) -> Result<Plan<'a>, AllocError>
    ensures { IfOk result (λ p. (E : Enter) → plans E p ≡ with_place (meaning E target.now place env.entry) (λ p. assign E operator p (meaning E right.now now env.entry))) }
{
    let around = env.copy()?;
    let plan = asks(alloc, target, Ask::Place, around)?;
    then_place(
        alloc,
        plan,
        AfterPlace::Assign(operator, NodeRef::new(right), env),
    )
}

/// An assignment: what is assigned to comes first (13.15.2).
pub(crate) fn enter_assignment<'a>(
    alloc: Global,
    operator: AssignmentOperator,
    nodes: &'a [Option<Node>],
    wanted: Wanted,
    env: Env<'a>,
) -> Result<Plan<'a>, AllocError>
    ensures { IfOk result (λ p. (E : Enter) → plans E p ≡ does E (Kind.AssignmentExpression operator) (row nodes.now) (eval E (row nodes.now)) (value (wanted_of wanted)) env.entry) }
{
    match first_two(nodes) {
        Pair::Both(target, right) => assignment_plan(alloc, operator, target, right, env),
        Pair::Fewer => uncovered(alloc),
    }
}

fn conditional_plan<'a>(
    alloc: Global,
    test: &'a Node,
    taken: &'a Node,
    other: &'a Node,
    env: Env<'a>,
) -> Result<Plan<'a>, AllocError>
    ensures { IfOk result (λ p. (E : Enter) → plans E p ≡ with_value (meaning E test.now now env.entry) (λ v. choose (truthy v) (meaning E taken.now now env.entry) (meaning E other.now now env.entry))) }
{
    let around = env.copy()?;
    let plan = asks(alloc, test, Ask::Value(Wanted::Itself), around)?;
    then_operand(
        alloc,
        plan,
        AfterOperand::Conditional(NodeRef::new(taken), NodeRef::new(other), env),
    )
}

/// A condition (13.14).
pub(crate) fn enter_conditional<'a>(
    alloc: Global,
    nodes: &'a [Option<Node>],
    wanted: Wanted,
    env: Env<'a>,
) -> Result<Plan<'a>, AllocError>
    ensures { IfOk result (λ p. (E : Enter) → plans E p ≡ does E Kind.ConditionalExpression (row nodes.now) (eval E (row nodes.now)) (value (wanted_of wanted)) env.entry) }
{
    match first_three(nodes) {
        Triple::All(test, taken, other) => conditional_plan(alloc, test, taken, other, env),
        Triple::Fewer => uncovered(alloc),
    }
}

fn call_plan<'a>(
    alloc: Global,
    callee: &'a Node,
    arguments: &'a Node,
    env: Env<'a>,
) -> Result<Plan<'a>, AllocError>
    ensures { IfOk result (λ p. (E : Enter) → plans E p ≡ with_receiver (meaning E callee.now (value to_call) env.entry) (λ f this. with_all (meaning E arguments.now collect env.entry) (call_value E f this))) }
{
    let around = env.copy()?;
    let plan = asks(alloc, callee, Ask::Value(Wanted::ToCall), around)?;
    then_operand(
        alloc,
        plan,
        AfterOperand::Callee(NodeRef::new(arguments), env),
    )
}

/// A call (13.3.6): the callee is asked for the receiver too.
pub(crate) fn enter_call<'a>(
    alloc: Global,
    pure: bool,
    nodes: &'a [Option<Node>],
    wanted: Wanted,
    env: Env<'a>,
) -> Result<Plan<'a>, AllocError>
    ensures { IfOk result (λ p. (E : Enter) → plans E p ≡ does E (Kind.CallExpression false pure) (row nodes.now) (eval E (row nodes.now)) (value (wanted_of wanted)) env.entry) }
{
    match first_two(nodes) {
        Pair::Both(callee, arguments) => call_plan(alloc, callee, arguments, env),
        Pair::Fewer => uncovered(alloc),
    }
}

fn new_plan<'a>(
    alloc: Global,
    callee: &'a Node,
    arguments: &'a Node,
    env: Env<'a>,
) -> Result<Plan<'a>, AllocError>
    ensures { IfOk result (λ p. (E : Enter) → plans E p ≡ with_value (meaning E callee.now now env.entry) (λ f. with_all (meaning E arguments.now collect env.entry) (construct_value E f))) }
{
    let around = env.copy()?;
    let plan = asks(alloc, callee, Ask::Value(Wanted::Itself), around)?;
    then_operand(
        alloc,
        plan,
        AfterOperand::NewCallee(NodeRef::new(arguments), env),
    )
}

/// `new` (13.3.5).
pub(crate) fn enter_new<'a>(
    alloc: Global,
    pure: bool,
    nodes: &'a [Option<Node>],
    wanted: Wanted,
    env: Env<'a>,
) -> Result<Plan<'a>, AllocError>
    ensures { IfOk result (λ p. (E : Enter) → plans E p ≡ does E (Kind.NewExpression pure) (row nodes.now) (eval E (row nodes.now)) (value (wanted_of wanted)) env.entry) }
{
    match first_two(nodes) {
        Pair::Both(callee, arguments) => new_plan(alloc, callee, arguments, env),
        Pair::Fewer => uncovered(alloc),
    }
}
