// Reading and writing what places refer to (ECMA-262 6.2.5.5, 6.2.5.6).
ghost use Rattle.std.specs.Prelude.{◌≡◌, IfOk};
ghost use Rattle.js_meaning.specs.State as state;
ghost use Rattle.js_meaning.specs.State.{M, bind, with_value};
ghost use Rattle.js_meaning.specs.Host.{Enter};
ghost use Rattle.js_meaning.specs.Reference.{get_member, set_member, get_place, put_place};
ghost use Rattle.js_meaning.specs.Expression.{receiver_of};
ghost use Rattle.run_value.specs.View.{value_of};
ghost use Rattle.run_value.specs.Given as value;
ghost use Rattle.run_world.specs.World.{at, place_of};
ghost use Rattle.run_plan.specs.Ask.{wanted_of};
ghost use Rattle.run_plan.specs.Frame.{plans, used};

use crate::host::consults;
use run_plan::{AfterOperand, Plan, Use, Wanted, completes, replies, then_operand, uncovered};
use run_value::{Act, Plain, Value};
use run_world::{Completion, Place, World};
use std::alloc::{AllocError, Global};

// The host answers for every property.
fn get_member<'a>(
    world: &mut World<'a>,
    alloc: Global,
    object: &Value<'a>,
    key: &Value<'a>,
) -> Result<Plan<'a>, AllocError>
    ensures does { IfOk result (λ p. (E : Enter) → at world.old (get_member E (value_of object.now) (value_of key.now)) ≡ at world.new (plans E p)) }
{
    let object = world.show(alloc, object)?;
    let key = world.show(alloc, key)?;
    consults(world, alloc, Act::Get { object, key })
}

fn set_member<'a>(
    world: &mut World<'a>,
    alloc: Global,
    object: &Value<'a>,
    key: &Value<'a>,
    value: Value<'a>,
) -> Result<Plan<'a>, AllocError>
    ensures does { IfOk result (λ p. (E : Enter) → at world.old (set_member E (value_of object.now) (value_of key.now) (value_of value.entry)) ≡ at world.new (plans E p)) }
{
    let object = world.show(alloc, object)?;
    let key = world.show(alloc, key)?;
    let shown = world.show(alloc, &value)?;
    let plan = consults(
        world,
        alloc,
        Act::Set {
            object,
            key,
            value: shown,
        },
    )?;
    then_operand(alloc, plan, AfterOperand::Given(value))
}

fn get<'a>(world: &mut World<'a>, alloc: Global, place: &Place<'a>) -> Result<Plan<'a>, AllocError>
    ensures does { IfOk result (λ p. (E : Enter) → at world.old (get_place E (place_of place.now)) ≡ at world.new (plans E p)) }
{
    match place {
        Place::Slot(slot) => {
            let reply = world.slot_value(*slot)?;
            replies(alloc, reply)
        }
        Place::Global(name, _) => {
            let reply = world.global_value(name)?;
            replies(alloc, reply)
        }
        Place::Member(object, key) => get_member(world, alloc, object, key),
    }
}

/// The value of a place (6.2.5.5).
pub fn get_place<'a>(
    world: &mut World<'a>,
    alloc: Global,
    place: &Place<'a>,
) -> Result<Plan<'a>, AllocError>
    ensures does { IfOk result (λ p. (E : Enter) → at world.old (get_place E (place_of place.now)) ≡ at world.new (plans E p)) }
    ensures follows { IfOk result (λ p. (E : Enter) (k : state.Completion → M) → at world.old (bind (get_place E (place_of place.now)) k) ≡ at world.new (bind (plans E p) k)) }
{
    let plan = get(world, alloc, place)?;
    Ok(plan)
}

fn put<'a>(
    world: &mut World<'a>,
    alloc: Global,
    place: &Place<'a>,
    value: Value<'a>,
) -> Result<Plan<'a>, AllocError>
    ensures does { IfOk result (λ p. (E : Enter) → at world.old (put_place E (place_of place.now) (value_of value.entry)) ≡ at world.new (plans E p)) }
{
    match place {
        Place::Slot(slot) => {
            let reply = world.assign_slot(*slot, value)?;
            replies(alloc, reply)
        }
        Place::Global(name, there) => {
            let reply = world.assign_global(alloc, name, *there, value)?;
            replies(alloc, reply)
        }
        Place::Member(object, key) => set_member(world, alloc, object, key, value),
    }
}

/// Writes a value there (6.2.5.6).
pub fn put_place<'a>(
    world: &mut World<'a>,
    alloc: Global,
    place: &Place<'a>,
    value: Value<'a>,
) -> Result<Plan<'a>, AllocError>
    ensures does { IfOk result (λ p. (E : Enter) → at world.old (put_place E (place_of place.now) (value_of value.entry)) ≡ at world.new (plans E p)) }
    ensures follows { IfOk result (λ p. (E : Enter) (k : state.Completion → M) → at world.old (bind (put_place E (place_of place.now) (value_of value.entry)) k) ≡ at world.new (bind (plans E p) k)) }
{
    let plan = put(world, alloc, place, value)?;
    Ok(plan)
}

/// Writes a value there that is given, or nothing is said of what follows.
pub fn put_given<'a>(
    world: &mut World<'a>,
    alloc: Global,
    place: &Place<'a>,
    found: Option<Value<'a>>,
) -> Result<Plan<'a>, AllocError>
    ensures does { IfOk result (λ p. (E : Enter) → at world.old (with_value (value.gives found.entry) (put_place E (place_of place.now))) ≡ at world.new (plans E p)) }
{
    match found {
        Some(found) => put_place(world, alloc, place, found),
        None => uncovered(alloc),
    }
}

fn receiver<'a>(wanted: Wanted, object: Value<'a>) -> Value<'a>
    ensures { value_of result ≡ receiver_of (wanted_of wanted) (value_of object.entry) }
{
    match wanted {
        Wanted::ToCall => object,
        Wanted::Itself => Value::Plain(Plain::Undefined),
        Wanted::ForTypeof => Value::Plain(Plain::Undefined),
    }
}

/// The property of an object under a key is read, or referred to.
pub fn used<'a>(
    world: &mut World<'a>,
    alloc: Global,
    aim: Use,
    object: Value<'a>,
    key: Value<'a>,
) -> Result<Plan<'a>, AllocError>
    ensures does { IfOk result (λ p. (E : Enter) → at world.old (used E aim (value_of object.entry) (value_of key.entry)) ≡ at world.new (plans E p)) }
{
    match aim {
        Use::Read(wanted) => {
            let this = object.copy()?;
            let place = Place::Member(object, key);
            let plan = get_place(world, alloc, &place)?;
            then_operand(alloc, plan, AfterOperand::Receiver(receiver(wanted, this)))
        }
        Use::Refer => completes(alloc, Completion::Refers(Place::Member(object, key))),
    }
}
