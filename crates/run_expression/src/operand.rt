// What expressions do with the value of an operand (ECMA-262 13).
ghost use Rattle.std.specs.Prelude.{◌≡◌, ◌++◌, [], ◌∷◌, IfOk, string_bytes};
ghost use Rattle.js_meaning.specs.State.{with_value, choose, done, gives_all};
ghost use Rattle.js_meaning.specs.Host.{Enter};
ghost use Rattle.js_meaning.specs.Operator.{unary_of, truthy};
ghost use Rattle.js_meaning.specs.Node.{now, need, values};
ghost use Rattle.js_meaning.specs.Expression.{binary_value, logical_value, known_key, member_key};
ghost use Rattle.js_meaning.specs.Value.{plain, text as text_value};
ghost use Rattle.js_meaning.specs.Meaning.{eval};
ghost use Rattle.run_value.specs.View.{value_of};
ghost use Rattle.run_world.specs.World.{at, values_of};
ghost use Rattle.run_plan.specs.Frame.{meaning, plans, used, entry_or_now, after_operand_of};

use crate::values::static_key;
use js_syntax::{BinaryOperator, Key, LogicalOperator, UnaryOperator};
use run_operations::{binary_value, given, only_boolean, only_object, used};
use run_plan::{
    AfterOperand, AfterValues, Ask, Front, NodeRef, Nodes, Plan, Use, Wanted, asks, collect_values,
    completes, first_field, replies, run_in_turn, then_operand, then_values, uncovered,
};
use run_value::{Env, Plain, Value, goes_right, is_other, truthy, unary_of};
use run_world::{Completion, World, gives};
use std::alloc::{AllocError, Global};
use std::rc::Rc;

const NOW: Wanted = Wanted::Itself;

fn with_last<'a>(before: Vec<Value<'a>>, value: Value<'a>) -> Result<Vec<Value<'a>>, AllocError>
    ensures { IfOk result (λ v. v.items ≡ before.entry.items ++ (value.entry ∷ [])) }
{
    let mut values = before;
    values.push(value)?;
    Ok(values)
}

fn collected<'a>(
    alloc: Global,
    entries: bool,
    rest: &Nodes<'a>,
    env: Env<'a>,
    before: Vec<Value<'a>>,
    value: Value<'a>,
) -> Result<Plan<'a>, AllocError>
    ensures { IfOk result (λ p. (E : Enter) → plans E p ≡ values (entry_or_now entries) (eval E rest.now) env.entry (λ vs. done (gives_all (values_of before.entry.items ++ (value_of value.entry ∷ vs))))) }
{
    let values = with_last(before, value)?;
    collect_values(alloc, entries, rest.nodes(), env, values)
}

fn unary<'a>(
    alloc: Global,
    operator: UnaryOperator,
    value: &Value<'a>,
) -> Result<Plan<'a>, AllocError>
    ensures { IfOk result (λ p. (E : Enter) → plans E p ≡ unary_of operator (value_of value.now)) }
{
    let found = unary_of(alloc, operator, value)?;
    given(alloc, found)
}

fn left<'a>(
    alloc: Global,
    operator: BinaryOperator,
    value: Value<'a>,
    right: &NodeRef<'a>,
    env: Env<'a>,
) -> Result<Plan<'a>, AllocError>
    ensures { IfOk result (λ p. (E : Enter) → plans E p ≡ with_value (meaning E right.now now env.entry) (binary_value E operator (value_of value.entry))) }
{
    let plan = asks(alloc, right.node(), Ask::Value(NOW), env)?;
    then_operand(alloc, plan, AfterOperand::Right(operator, value))
}

#[tactic(auto, unfolding(js_meaning::specs::State::choose))]
fn logical<'a>(
    alloc: Global,
    operator: LogicalOperator,
    value: Value<'a>,
    right: &NodeRef<'a>,
    env: Env<'a>,
) -> Result<Plan<'a>, AllocError>
    ensures { IfOk result (λ p. (E : Enter) → plans E p ≡ logical_value operator (value_of value.entry) (meaning E right.now now env.entry)) }
{
    if goes_right(operator, &value) {
        asks(alloc, right.node(), Ask::Value(NOW), env)
    } else {
        replies(alloc, gives(value))
    }
}

#[tactic(auto, unfolding(js_meaning::specs::State::choose))]
fn conditional<'a>(
    alloc: Global,
    value: &Value<'a>,
    yes: &NodeRef<'a>,
    no: &NodeRef<'a>,
    env: Env<'a>,
) -> Result<Plan<'a>, AllocError>
    ensures { IfOk result (λ p. (E : Enter) → plans E p ≡ choose (truthy (value_of value.now)) (meaning E yes.now now env.entry) (meaning E no.now now env.entry)) }
{
    if truthy(value) {
        asks(alloc, yes.node(), Ask::Value(NOW), env)
    } else {
        asks(alloc, no.node(), Ask::Value(NOW), env)
    }
}

#[tactic(auto, unfolding(js_meaning::specs::Node::need, js_meaning::specs::Meaning::eval))]
fn key_below<'a>(
    alloc: Global,
    nodes: &Nodes<'a>,
    env: Env<'a>,
    aim: Use,
    object: Value<'a>,
) -> Result<Plan<'a>, AllocError>
    ensures { IfOk result (λ p. (E : Enter) → plans E p ≡ need (eval E nodes.now) (λ m r. with_value (m now env.entry) (known_key (used E aim (value_of object.entry))))) }
{
    match first_field(nodes.nodes()) {
        Front::Node(node, _) => {
            let plan = asks(alloc, node, Ask::Value(NOW), env)?;
            then_operand(alloc, plan, AfterOperand::MemberKey(object, aim))
        }
        Front::Absent(_) => uncovered(alloc),
        Front::End => uncovered(alloc),
    }
}

fn text<'a>(alloc: Global, text: String) -> Result<Value<'a>, AllocError>
    ensures { IfOk result (λ v. value_of v ≡ plain (text_value (string_bytes text))) }
{
    let text = Rc::new(alloc, text)?;
    Ok(Value::Plain(Plain::Text(text)))
}

// A computed key is evaluated next; any other is known.
fn member_of<'a>(
    world: &mut World<'a>,
    alloc: Global,
    key: &Key,
    nodes: &Nodes<'a>,
    env: Env<'a>,
    aim: Use,
    object: Value<'a>,
) -> Result<Plan<'a>, AllocError>
    ensures does { IfOk result (λ p. (E : Enter) → at world.old (member_key key.now (eval E nodes.now) env.entry (used E aim (value_of object.entry))) ≡ at world.new (plans E p)) }
{
    match key {
        Key::Below => key_below(alloc, nodes, env, aim, object),
        _ => {
            let name = static_key(alloc, key)?;
            let name = text(alloc, name)?;
            used(world, alloc, aim, object, name)
        }
    }
}

#[tactic(auto, unfolding(js_meaning::specs::State::choose))]
fn at_key<'a>(
    world: &mut World<'a>,
    alloc: Global,
    aim: Use,
    object: Value<'a>,
    key: Value<'a>,
) -> Result<Plan<'a>, AllocError>
    ensures does { IfOk result (λ p. (E : Enter) → at world.old (known_key (used E aim (value_of object.entry)) (value_of key.entry)) ≡ at world.new (plans E p)) }
{
    if is_other(&key) {
        uncovered(alloc)
    } else {
        used(world, alloc, aim, object, key)
    }
}

/// What an expression does with the value of an operand, and the receiver that it came with.
pub fn resume_operand<'a>(
    world: &mut World<'a>,
    alloc: Global,
    frame: AfterOperand<'a>,
    value: Value<'a>,
    this: Value<'a>,
) -> Result<Plan<'a>, AllocError>
    ensures does { IfOk result (λ p. (E : Enter) → at world.old (after_operand_of E frame.entry (value_of value.entry) (value_of this.entry)) ≡ at world.new (plans E p)) }
{
    match frame {
        AfterOperand::Collect(entries, rest, env, before) => {
            collected(alloc, entries, &rest, env, before, value)
        }
        AfterOperand::InTurn(rest, env) => run_in_turn(alloc, rest.nodes(), env),
        AfterOperand::Given(other) => replies(alloc, gives(other)),
        AfterOperand::Receiver(receiver) => completes(alloc, Completion::Gives(value, receiver)),
        AfterOperand::Unary(operator) => unary(alloc, operator, &value),
        AfterOperand::Left(operator, right, env) => left(alloc, operator, value, &right, env),
        AfterOperand::Right(operator, left) => binary_value(world, alloc, operator, &left, &value),
        AfterOperand::Logical(operator, right, env) => {
            logical(alloc, operator, value, &right, env)
        }
        AfterOperand::Conditional(yes, no, env) => conditional(alloc, &value, &yes, &no, env),
        AfterOperand::Callee(arguments, env) => {
            let plan = asks(alloc, arguments.node(), Ask::Collect, env)?;
            then_values(alloc, plan, AfterValues::Call(value, this))
        }
        AfterOperand::NewCallee(arguments, env) => {
            let plan = asks(alloc, arguments.node(), Ask::Collect, env)?;
            then_values(alloc, plan, AfterValues::New(value))
        }
        AfterOperand::MemberOf(key, nodes, env, aim) => {
            member_of(world, alloc, &key, &nodes, env, aim, value)
        }
        AfterOperand::MemberKey(object, aim) => at_key(world, alloc, aim, object, value),
        AfterOperand::OnlyBoolean => only_boolean(alloc, value),
        AfterOperand::OnlyObject => only_object(alloc, value),
    }
}
