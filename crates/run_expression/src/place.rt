// What updates and assignments do with what their target refers to (ECMA-262 13.4, 13.15.2).
ghost use Rattle.std.specs.Prelude.{◌≡◌, IfOk};
ghost use Rattle.js_meaning.specs.Host.{Enter};
ghost use Rattle.js_meaning.specs.Node.{now};
ghost use Rattle.js_meaning.specs.Expression.{compound, short, assign};
ghost use Rattle.run_world.specs.World.{at, place_of};
ghost use Rattle.run_plan.specs.Frame.{meaning, plans, after_place_of};

use js_syntax::{AssignmentOperator, BinaryOperator, LogicalOperator};
use run_operations::get_place;
use run_plan::{AfterPlace, AfterTarget, Ask, NodeRef, Plan, Wanted, asks, then_target, uncovered};
use run_value::Env;
use run_world::{Place, World};
use std::alloc::{AllocError, Global};

fn compound<'a>(
    world: &mut World<'a>,
    alloc: Global,
    operator: BinaryOperator,
    place: Place<'a>,
    right: NodeRef<'a>,
    env: Env<'a>,
) -> Result<Plan<'a>, AllocError>
    ensures does { IfOk result (λ p. (E : Enter) → at world.old (compound E operator (place_of place.entry) (meaning E right.entry now env.entry)) ≡ at world.new (plans E p)) }
{
    let plan = get_place(world, alloc, &place)?;
    then_target(
        alloc,
        plan,
        AfterTarget::Compound(operator, place, right, env),
    )
}

fn short<'a>(
    world: &mut World<'a>,
    alloc: Global,
    operator: LogicalOperator,
    place: Place<'a>,
    right: NodeRef<'a>,
    env: Env<'a>,
) -> Result<Plan<'a>, AllocError>
    ensures does { IfOk result (λ p. (E : Enter) → at world.old (short E operator (place_of place.entry) (meaning E right.entry now env.entry)) ≡ at world.new (plans E p)) }
{
    let plan = get_place(world, alloc, &place)?;
    then_target(alloc, plan, AfterTarget::Short(operator, place, right, env))
}

fn assign<'a>(
    world: &mut World<'a>,
    alloc: Global,
    operator: AssignmentOperator,
    place: Place<'a>,
    right: NodeRef<'a>,
    env: Env<'a>,
) -> Result<Plan<'a>, AllocError>
    ensures does { IfOk result (λ p. (E : Enter) → at world.old (assign E operator (place_of place.entry) (meaning E right.entry now env.entry)) ≡ at world.new (plans E p)) }
{
    match operator {
        AssignmentOperator::Assign => {
            let plan = asks(alloc, right.node(), Ask::Value(Wanted::Itself), env)?;
            then_target(alloc, plan, AfterTarget::Put(place))
        }
        AssignmentOperator::Addition => {
            compound(world, alloc, BinaryOperator::Addition, place, right, env)
        }
        AssignmentOperator::Subtraction => {
            compound(world, alloc, BinaryOperator::Subtraction, place, right, env)
        }
        AssignmentOperator::Multiplication => {
            compound(
                world,
                alloc,
                BinaryOperator::Multiplication,
                place,
                right,
                env,
            )
        }
        AssignmentOperator::Division => {
            compound(world, alloc, BinaryOperator::Division, place, right, env)
        }
        AssignmentOperator::Remainder => {
            compound(world, alloc, BinaryOperator::Remainder, place, right, env)
        }
        AssignmentOperator::LogicalAnd => {
            short(world, alloc, LogicalOperator::And, place, right, env)
        }
        AssignmentOperator::LogicalOr => {
            short(world, alloc, LogicalOperator::Or, place, right, env)
        }
        AssignmentOperator::LogicalNullish => {
            short(world, alloc, LogicalOperator::Coalesce, place, right, env)
        }
        _ => uncovered(alloc),
    }
}

/// What an update or an assignment does with what its target refers to.
pub fn resume_place<'a>(
    world: &mut World<'a>,
    alloc: Global,
    frame: AfterPlace<'a>,
    place: Place<'a>,
) -> Result<Plan<'a>, AllocError>
    ensures does { IfOk result (λ p. (E : Enter) → at world.old (after_place_of E frame.entry (place_of place.entry)) ≡ at world.new (plans E p)) }
{
    match frame {
        AfterPlace::Update(operator, prefix) => {
            let plan = get_place(world, alloc, &place)?;
            then_target(alloc, plan, AfterTarget::Update(operator, prefix, place))
        }
        AfterPlace::Assign(operator, right, env) => {
            assign(world, alloc, operator, place, right, env)
        }
    }
}
