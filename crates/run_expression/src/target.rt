// What updates and assignments do with a value (ECMA-262 13.4, 13.15).
ghost use Rattle.std.specs.Prelude.{◌≡◌, IfOk};
ghost use Rattle.js_meaning.specs.State.{give, with_value};
ghost use Rattle.js_meaning.specs.Host.{Enter};
ghost use Rattle.js_meaning.specs.Operator.{on_number, updated};
ghost use Rattle.js_meaning.specs.Reference.{put_place};
ghost use Rattle.js_meaning.specs.Node.{now};
ghost use Rattle.js_meaning.specs.Expression.{logical_value, then_put, update_gives};
ghost use Rattle.run_value.specs.View.{value_of};
ghost use Rattle.run_value.specs.Given as given;
ghost use Rattle.run_world.specs.World.{at, place_of};
ghost use Rattle.run_plan.specs.Frame.{meaning, plans, after_target_of};

use js_syntax::LogicalOperator;
use run_operations::{put_given, put_place};
use run_plan::{
    AfterOperand, AfterTarget, Ask, NodeRef, Plan, Wanted, asks, replies, then_operand,
    then_target, uncovered,
};
use run_value::{Env, Value, binary_of, goes_right, updated};
use run_world::{Place, World, gives};
use std::alloc::{AllocError, Global};

// The old value after, the new one before.
fn update_gives<'a>(prefix: bool, old: Value<'a>, new: &Value<'a>) -> Result<Value<'a>, AllocError>
    ensures { IfOk result (λ v. give (value_of v) ≡ update_gives prefix (value_of old.entry) (value_of new.now)) }
{
    if prefix {
        let new = new.copy()?;
        Ok(new)
    } else {
        Ok(old)
    }
}

// The new value of an update is written there.
fn write_updated<'a>(
    world: &mut World<'a>,
    alloc: Global,
    prefix: bool,
    place: &Place<'a>,
    old: Value<'a>,
    new: Option<Value<'a>>,
) -> Result<Plan<'a>, AllocError>
    ensures does { IfOk result (λ p. (E : Enter) → at world.old (with_value (given.gives new.entry) (λ new. with_value (put_place E (place_of place.now) new) (λ u. update_gives prefix (value_of old.entry) new))) ≡ at world.new (plans E p)) }
{
    match new {
        Some(new) => {
            let value = update_gives(prefix, old, &new)?;
            let plan = put_place(world, alloc, place, new)?;
            then_operand(alloc, plan, AfterOperand::Given(value))
        }
        None => uncovered(alloc),
    }
}

// A logical assignment writes only where it evaluates its right side.
#[tactic(auto, unfolding(js_meaning::specs::State::choose))]
fn short<'a>(
    alloc: Global,
    operator: LogicalOperator,
    value: Value<'a>,
    place: Place<'a>,
    right: &NodeRef<'a>,
    env: Env<'a>,
) -> Result<Plan<'a>, AllocError>
    ensures { IfOk result (λ p. (E : Enter) → plans E p ≡ logical_value operator (value_of value.entry) (then_put E (place_of place.entry) (meaning E right.now now env.entry))) }
{
    if goes_right(operator, &value) {
        let plan = asks(alloc, right.node(), Ask::Value(Wanted::Itself), env)?;
        then_target(alloc, plan, AfterTarget::Put(place))
    } else {
        replies(alloc, gives(value))
    }
}

/// What an update or an assignment does with a value.
pub fn resume_target<'a>(
    world: &mut World<'a>,
    alloc: Global,
    frame: AfterTarget<'a>,
    value: Value<'a>,
) -> Result<Plan<'a>, AllocError>
    ensures does { IfOk result (λ p. (E : Enter) → at world.old (after_target_of E frame.entry (value_of value.entry)) ≡ at world.new (plans E p)) }
{
    match frame {
        AfterTarget::Update(operator, prefix, place) => {
            let new = updated(operator, &value);
            write_updated(world, alloc, prefix, &place, value, new)
        }
        AfterTarget::Put(place) => put_place(world, alloc, &place, value),
        AfterTarget::Compound(operator, place, right, env) => {
            let plan = asks(alloc, right.node(), Ask::Value(Wanted::Itself), env)?;
            then_target(
                alloc,
                plan,
                AfterTarget::CompoundRight(operator, value, place),
            )
        }
        AfterTarget::CompoundRight(operator, old, place) => {
            let found = binary_of(alloc, operator, &old, &value)?;
            put_given(world, alloc, &place, found)
        }
        AfterTarget::Short(operator, place, right, env) => {
            short(alloc, operator, value, place, &right, env)
        }
    }
}
