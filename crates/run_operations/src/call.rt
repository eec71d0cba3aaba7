// Calls and `new` (ECMA-262 13.3.5, 13.3.6).
ghost use Rattle.std.specs.Prelude.{◌≡◌, true, IfOk};
ghost use Rattle.js_meaning.specs.Value.{plain, host};
ghost use Rattle.js_meaning.specs.Host.{Enter};
ghost use Rattle.js_meaning.specs.Expression.{call_value, construct_shown, construct_value};
ghost use Rattle.run_value.specs.Plain.{plain_of};
ghost use Rattle.run_value.specs.View.{value_of};
ghost use Rattle.run_world.specs.World.{at, values_of};
ghost use Rattle.run_plan.specs.Frame.{plans};

use crate::host::{consults, throws};
use run_plan::{AfterOperand, Plan, Task, enters, then_operand, uncovered};
use run_value::{Act, ErrorKind, Plain, Value, is_other};
use run_world::{Call, World};
use std::alloc::{AllocError, Global};

// A host's object is the host's to call.
fn call_host<'a>(
    world: &mut World<'a>,
    alloc: Global,
    number: u64,
    this: &Value<'a>,
    arguments: &[Value<'a>],
) -> Result<Plan<'a>, AllocError>
    ensures does { IfOk result (λ p. (E : Enter) → at world.old (call_value E (plain (host number true)) (value_of this.now) (values_of arguments.now)) ≡ at world.new (plans E p)) }
{
    let callee = Value::Plain(Plain::Host(number, true));
    let shown_callee = world.show(alloc, &callee)?;
    let shown_this = world.show(alloc, this)?;
    let shown_arguments = world.show_all(alloc, arguments)?;
    let act = Act::Call {
        callee: shown_callee,
        this: shown_this,
        arguments: shown_arguments,
    };
    consults(world, alloc, act)
}

// Nothing else of these can be called.
fn call_plain<'a>(
    world: &mut World<'a>,
    alloc: Global,
    callee: &Plain,
    this: &Value<'a>,
    arguments: &[Value<'a>],
) -> Result<Plan<'a>, AllocError>
    ensures does { IfOk result (λ p. (E : Enter) → at world.old (call_value E (plain (plain_of callee.now)) (value_of this.now) (values_of arguments.now)) ≡ at world.new (plans E p)) }
{
    match callee {
        Plain::Host(number, true) => call_host(world, alloc, *number, this, arguments),
        Plain::Host(_, false)
        | Plain::Undefined
        | Plain::Null
        | Plain::Boolean(_)
        | Plain::Number(_)
        | Plain::Text(_)
        | Plain::Other(..) => throws(world, alloc, ErrorKind::TypeError),
    }
}

/// Calls a value with a receiver and arguments.
pub fn call_value<'a>(
    world: &mut World<'a>,
    alloc: Global,
    callee: &Value<'a>,
    this: Value<'a>,
    arguments: Vec<Value<'a>>,
) -> Result<Plan<'a>, AllocError>
    ensures does { IfOk result (λ p. (E : Enter) → at world.old (call_value E (value_of callee.now) (value_of this.entry) (values_of arguments.entry.items)) ≡ at world.new (plans E p)) }
{
    match callee {
        Value::Closure(_, kind, below, env) => {
            let env = env.copy()?;
            let kind = *kind;
            let below = *below;
            let call = Call {
                kind,
                below,
                env,
                this,
                arguments,
            };
            enters(alloc, Task::Body(call))
        }
        Value::Plain(callee) => call_plain(world, alloc, callee, &this, arguments.as_slice()),
        Value::Object(..) | Value::Array(..) | Value::Error(..) => {
            throws(world, alloc, ErrorKind::TypeError)
        }
    }
}

fn construct_shown<'a>(
    world: &mut World<'a>,
    alloc: Global,
    callee: &Value<'a>,
    arguments: &[Value<'a>],
) -> Result<Plan<'a>, AllocError>
    ensures does { IfOk result (λ p. (E : Enter) → at world.old (construct_shown E (value_of callee.now) (values_of arguments.now)) ≡ at world.new (plans E p)) }
{
    let shown_callee = world.show(alloc, callee)?;
    let shown_arguments = world.show_all(alloc, arguments)?;
    let plan = consults(
        world,
        alloc,
        Act::Construct {
            callee: shown_callee,
            arguments: shown_arguments,
        },
    )?;
    then_operand(alloc, plan, AfterOperand::OnlyObject)
}

/// `new` of a value, which is the host's, with arguments.
#[tactic(auto, unfolding(js_meaning::specs::State::choose))]
pub fn construct_value<'a>(
    world: &mut World<'a>,
    alloc: Global,
    callee: &Value<'a>,
    arguments: &[Value<'a>],
) -> Result<Plan<'a>, AllocError>
    ensures does { IfOk result (λ p. (E : Enter) → at world.old (construct_value E (value_of callee.now) (values_of arguments.now)) ≡ at world.new (plans E p)) }
{
    if is_other(callee) {
        uncovered(alloc)
    } else {
        construct_shown(world, alloc, callee, arguments)
    }
}
