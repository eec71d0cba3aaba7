// Operators on two values (ECMA-262 13.6 to 13.12).
ghost use Rattle.std.specs.Prelude.{◌≡◌, IfOk};
ghost use Rattle.js_syntax.specs.declared.operator.BinaryOperator.TheVariants as binary;
ghost use Rattle.js_meaning.specs.State.{choose, give, stop};
ghost use Rattle.js_meaning.specs.Trace as trace;
ghost use Rattle.js_meaning.specs.Host.{Enter};
ghost use Rattle.js_meaning.specs.Operator.{is_boolean, is_object};
ghost use Rattle.js_meaning.specs.Expression.{ask_host, binary_value};
ghost use Rattle.run_value.specs.View.{value_of};
ghost use Rattle.run_world.specs.World.{at};
ghost use Rattle.run_plan.specs.Frame.{plans};

use crate::host::{consults, given};
use js_syntax::BinaryOperator;
use run_plan::{AfterOperand, Plan, replies, then_operand, uncovered};
use run_value::{Act, Ending, Value, binary_of, either_other, is_boolean, is_object};
use run_world::{Reply, World, gives};
use std::alloc::{AllocError, Global};

/// The host has to answer with a truth value, or the run stops.
#[tactic(auto, unfolding(js_meaning::specs::State::choose))]
pub fn only_boolean<'a>(alloc: Global, value: Value<'a>) -> Result<Plan<'a>, AllocError>
    ensures { IfOk result (λ p. (E : Enter) → plans E p ≡ choose (is_boolean (value_of value.entry)) (give (value_of value.entry)) (stop trace.Ending.host_stopped)) }
{
    if is_boolean(&value) {
        replies(alloc, gives(value))
    } else {
        replies(alloc, Reply::Stops(Ending::HostStopped))
    }
}

/// The host has to answer with an object, or the run stops.
#[tactic(auto, unfolding(js_meaning::specs::State::choose))]
pub fn only_object<'a>(alloc: Global, value: Value<'a>) -> Result<Plan<'a>, AllocError>
    ensures { IfOk result (λ p. (E : Enter) → plans E p ≡ choose (is_object (value_of value.entry)) (give (value_of value.entry)) (stop trace.Ending.host_stopped)) }
{
    if is_object(&value) {
        replies(alloc, gives(value))
    } else {
        replies(alloc, Reply::Stops(Ending::HostStopped))
    }
}

fn asks_in<'a>(
    world: &mut World<'a>,
    alloc: Global,
    left: &Value<'a>,
    right: &Value<'a>,
) -> Result<Plan<'a>, AllocError>
    ensures does { IfOk result (λ p. (E : Enter) → at world.old (ask_host E trace.Act.asks_in (value_of left.now) (value_of right.now)) ≡ at world.new (plans E p)) }
{
    let left = world.show(alloc, left)?;
    let right = world.show(alloc, right)?;
    let plan = consults(world, alloc, Act::In { left, right })?;
    then_operand(alloc, plan, AfterOperand::OnlyBoolean)
}

fn asks_instanceof<'a>(
    world: &mut World<'a>,
    alloc: Global,
    left: &Value<'a>,
    right: &Value<'a>,
) -> Result<Plan<'a>, AllocError>
    ensures does { IfOk result (λ p. (E : Enter) → at world.old (ask_host E trace.Act.asks_instanceof (value_of left.now) (value_of right.now)) ≡ at world.new (plans E p)) }
{
    let left = world.show(alloc, left)?;
    let right = world.show(alloc, right)?;
    let plan = consults(world, alloc, Act::Instanceof { left, right })?;
    then_operand(alloc, plan, AfterOperand::OnlyBoolean)
}

#[tactic(auto, unfolding(js_meaning::specs::State::choose))]
fn in_value<'a>(
    world: &mut World<'a>,
    alloc: Global,
    left: &Value<'a>,
    right: &Value<'a>,
) -> Result<Plan<'a>, AllocError>
    ensures does { IfOk result (λ p. (E : Enter) → at world.old (binary_value E binary.In (value_of left.now) (value_of right.now)) ≡ at world.new (plans E p)) }
{
    if either_other(left, right) {
        uncovered(alloc)
    } else {
        asks_in(world, alloc, left, right)
    }
}

#[tactic(auto, unfolding(js_meaning::specs::State::choose))]
fn instanceof_value<'a>(
    world: &mut World<'a>,
    alloc: Global,
    left: &Value<'a>,
    right: &Value<'a>,
) -> Result<Plan<'a>, AllocError>
    ensures does { IfOk result (λ p. (E : Enter) → at world.old (binary_value E binary.Instanceof (value_of left.now) (value_of right.now)) ≡ at world.new (plans E p)) }
{
    if either_other(left, right) {
        uncovered(alloc)
    } else {
        asks_instanceof(world, alloc, left, right)
    }
}

/// A binary operator on two values.
pub fn binary_value<'a>(
    world: &mut World<'a>,
    alloc: Global,
    operator: BinaryOperator,
    left: &Value<'a>,
    right: &Value<'a>,
) -> Result<Plan<'a>, AllocError>
    ensures does { IfOk result (λ p. (E : Enter) → at world.old (binary_value E operator (value_of left.now) (value_of right.now)) ≡ at world.new (plans E p)) }
{
    match operator {
        BinaryOperator::In => in_value(world, alloc, left, right),
        BinaryOperator::Instanceof => instanceof_value(world, alloc, left, right),
        _ => {
            let found = binary_of(alloc, operator, left, right)?;
            given(alloc, found)
        }
    }
}
