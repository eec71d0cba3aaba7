// What the host does while it is asked, and afterwards.
ghost use Rattle.std.specs.Prelude.{◌≡◌, ◌∷◌, List, Bool, Option, Some, IfOk, OnOk, string_bytes, if◌then◌else◌};
ghost use Rattle.js_meaning.specs.Value as meant;
ghost use Rattle.js_meaning.specs.Value.{given_own, undef};
ghost use Rattle.js_meaning.specs.State as state;
ghost use Rattle.js_meaning.specs.Trace as trace;
ghost use Rattle.js_meaning.specs.State.{M, set_global, set_import, set_moves, stop};
ghost use Rattle.js_meaning.specs.Show.{resolve, resolve_all, resolve_maybe};
ghost use Rattle.js_meaning.specs.Host.{Enter, call_back, moves_end, answered, play, host_moves, consult};
ghost use Rattle.run_value.specs.View.{value_of};
ghost use Rattle.run_value.specs.ShownView.{given_of};
ghost use Rattle.run_value.specs.Trace.{act_of};
ghost use Rattle.run_world.specs.World.{at, values_of, givens_of, maybe_given, move_of, moves_of, replies, goes};
ghost use Rattle.run_operations.specs.Going.{if_answer, made};

use run_value::{Act, Ending, Given, Value};
use run_world::{Call, Completion, Move, Next, Reply, World, gives, unknown};
use std::alloc::{AllocError, Global};
use std::rc::Rc;

fn stopped<'a>() -> Reply<'a>
    ensures { replies result ≡ stop trace.Ending.host_stopped }
{
    Reply::Stops(Ending::HostStopped)
}

// No move is left.
fn moves_end<'a>(awaited: bool) -> Reply<'a>
    ensures { replies result ≡ moves_end awaited }
{
    if awaited {
        stopped()
    } else {
        Reply::Completes(Completion::Normal)
    }
}

fn call_back<'a>(
    awaited: bool,
    this: Value<'a>,
    arguments: Vec<Value<'a>>,
    callee: &Value<'a>,
) -> Result<Next<'a>, AllocError>
    ensures { IfOk result (λ n. (E : Enter) → goes E n ≡ call_back E awaited (value_of this.entry) (values_of arguments.entry.items) (value_of callee.now)) }
{
    match callee {
        Value::Closure(_, kind, below, env) => {
            let env = env.copy()?;
            let kind = *kind;
            let below = *below;
            Ok(Next::CallsBack(
                awaited,
                Call {
                    kind,
                    below,
                    env,
                    this,
                    arguments,
                },
            ))
        }
        Value::Plain(_) | Value::Object(..) | Value::Array(..) | Value::Error(..) => Ok(
            Next::Replies(stopped()),
        ),
    }
}

// An answer, which is skipped where nothing waits for it.
fn answered<'a>(awaited: bool, value: Option<Value<'a>>) -> Option<Next<'a>>
    ensures { (E : Enter) (ms : List trace.Move) → if_answer value.entry (λ v. answered awaited (state.gives v undef) (play E awaited ms)) ≡ made E awaited ms result }
{
    match value {
        Some(value) => {
            if awaited {
                Some(Next::Replies(gives(value)))
            } else {
                None
            }
        }
        None => Some(Next::Replies(stopped())),
    }
}

fn refused<'a>(awaited: bool, value: Option<Value<'a>>) -> Option<Next<'a>>
    ensures { (E : Enter) (ms : List trace.Move) → if_answer value.entry (λ v. answered awaited (state.throws v) (play E awaited ms)) ≡ made E awaited ms result }
{
    match value {
        Some(value) => {
            if awaited {
                Some(Next::Replies(Reply::Completes(Completion::Throws(value))))
            } else {
                None
            }
        }
        None => Some(Next::Replies(stopped())),
    }
}

fn call_with<'a>(
    world: &World<'a>,
    alloc: Global,
    awaited: bool,
    callee: &Value<'a>,
    this: Value<'a>,
    arguments: &[Given],
) -> Result<Next<'a>, AllocError>
    ensures { IfOk result (λ n. (E : Enter) → at world.now (resolve_all (givens_of arguments.now) (λ vs. call_back E awaited (value_of this.entry) vs (value_of callee.now))) ≡ at world.now (goes E n)) }
{
    let arguments = world.resolve_all(alloc, arguments)?;
    match arguments {
        Some(arguments) => {
            let next = call_back(awaited, this, arguments, callee)?;
            Ok(next)
        }
        None => Ok(Next::Replies(stopped())),
    }
}

fn call_on<'a>(
    world: &World<'a>,
    alloc: Global,
    awaited: bool,
    callee: &Value<'a>,
    this: &Given,
    arguments: &[Given],
) -> Result<Next<'a>, AllocError>
    ensures { IfOk result (λ n. (E : Enter) → at world.now (resolve (given_of this.now) (λ this. resolve_all (givens_of arguments.now) (λ vs. call_back E awaited this vs (value_of callee.now)))) ≡ at world.now (goes E n)) }
{
    let this = world.resolve(this)?;
    match this {
        Some(this) => call_with(world, alloc, awaited, callee, this, arguments),
        None => Ok(Next::Replies(stopped())),
    }
}

fn call_own<'a>(
    world: &World<'a>,
    alloc: Global,
    awaited: bool,
    number: usize,
    this: &Given,
    arguments: &[Given],
) -> Result<Next<'a>, AllocError>
    ensures { IfOk result (λ n. (E : Enter) → at world.now (resolve (given_own number) (λ f. resolve (given_of this.now) (λ this. resolve_all (givens_of arguments.now) (λ vs. call_back E awaited this vs f)))) ≡ at world.now (goes E n)) }
{
    let callee = world.resolve(&Given::Own(number))?;
    match callee {
        Some(callee) => call_on(world, alloc, awaited, &callee, this, arguments),
        None => Ok(Next::Replies(stopped())),
    }
}

// Sets a global: false where the host can't name the value.
fn set_global_to<'a>(
    world: &mut World<'a>,
    name: &Rc<String>,
    value: &Given,
) -> Result<bool, AllocError>
    ensures does { IfOk result (λ b. (m : M) → at world.old (resolve (given_of value.now) (λ v. set_global (string_bytes name.now.value) (Some v) m)) ≡ at world.new (if b then m else stop trace.Ending.host_stopped)) }
{
    let value = world.resolve(value)?;
    match value {
        Some(value) => {
            let name = name.clone()?;
            world.set_global(name, Some(value))?;
            Ok(true)
        }
        None => Ok(false),
    }
}

fn set_import_to<'a>(
    world: &mut World<'a>,
    source: &Rc<String>,
    name: &Rc<String>,
    value: &Option<Given>,
) -> Result<bool, AllocError>
    ensures does { IfOk result (λ b. (m : M) → at world.old (resolve_maybe (maybe_given value.now) (λ v. set_import (string_bytes source.now.value) (string_bytes name.now.value) v m)) ≡ at world.new (if b then m else stop trace.Ending.host_stopped)) }
{
    match value {
        Some(value) => {
            let value = world.resolve(value)?;
            match value {
                Some(value) => {
                    let source = source.clone()?;
                    let name = name.clone()?;
                    world.set_import(source, name, Some(value))?;
                    Ok(true)
                }
                None => Ok(false),
            }
        }
        None => {
            let source = source.clone()?;
            let name = name.clone()?;
            world.set_import(source, name, None)?;
            Ok(true)
        }
    }
}

// The value that the host names, where so many moves are left behind it.
fn take_answer<'a>(
    world: &mut World<'a>,
    value: &Given,
    left: &'a [Move],
) -> Result<Option<Value<'a>>, AllocError>
    ensures does { IfOk result (λ v. (k : meant.Value → M) → at world.old (resolve (given_of value.now) (λ v. set_moves (moves_of left.now) (k v))) ≡ at world.new (if_answer v k)) }
{
    let value = world.resolve(value)?;
    match value {
        Some(value) => {
            world.set_moves(left);
            Ok(Some(value))
        }
        None => Ok(None),
    }
}

// One move: how it goes on, or `None` where the others are made next.
#[tactic(auto, unfolding(js_meaning::specs::Host::play))]
fn make_move<'a>(
    world: &mut World<'a>,
    alloc: Global,
    awaited: bool,
    first: &Move,
    others: &'a [Move],
) -> Result<Option<Next<'a>>, AllocError>
    ensures does { IfOk result (λ n. (E : Enter) → at world.old (play E awaited (move_of first.now ∷ moves_of others.now)) ≡ at world.new (made E awaited (moves_of others.now) n)) }
{
    match first {
        Move::CallOwn {
            callee,
            this,
            arguments,
        } => {
            world.set_moves(others);
            let next = call_own(world, alloc, awaited, *callee, this, arguments.as_slice())?;
            Ok(Some(next))
        }
        Move::SetGlobal { name, value } => {
            if set_global_to(world, name, value)? {
                Ok(None)
            } else {
                Ok(Some(Next::Replies(stopped())))
            }
        }
        Move::RemoveGlobal { name } => {
            let name = name.clone()?;
            world.set_global(name, None)?;
            Ok(None)
        }
        Move::SetImport {
            source,
            name,
            value,
        } => {
            if set_import_to(world, source, name, value)? {
                Ok(None)
            } else {
                Ok(Some(Next::Replies(stopped())))
            }
        }
        Move::Answer { value } => {
            let value = take_answer(world, value, others)?;
            Ok(answered(awaited, value))
        }
        Move::Refuse { value } => {
            let value = take_answer(world, value, others)?;
            Ok(refused(awaited, value))
        }
    }
}

// The host's moves: to an answer or throw where one is awaited, else to their end.
#[tactic(auto, unfolding(js_meaning::specs::Host::play))]
fn play<'a>(
    world: &mut World<'a>,
    alloc: Global,
    awaited: bool,
    moves: &'a [Move],
) -> Result<Next<'a>, AllocError>
    ensures does { IfOk result (λ n. (E : Enter) → at world.old (play E awaited (moves_of moves.now)) ≡ at world.new (goes E n)) }
{
    match moves {
        [first, others @ ..] => match make_move(world, alloc, awaited, first, others)? {
            Some(next) => Ok(next),
            None => play(world, alloc, awaited, others),
        },
        [] => Ok(Next::Replies(moves_end(awaited))),
    }
}

/// What the host does now: it moves to an answer or throw where one is awaited, else to the end.
pub fn host_moves<'a>(
    world: &mut World<'a>,
    alloc: Global,
    awaited: bool,
) -> Result<Next<'a>, AllocError>
    ensures does { IfOk result (λ n. (E : Enter) → at world.old (host_moves E awaited) ≡ at world.new (goes E n)) }
{
    play(world, alloc, awaited, world.moves())
}

/// An act whose outcome the host gives.
pub fn consult<'a>(world: &mut World<'a>, alloc: Global, act: Act) -> Result<Next<'a>, AllocError>
    ensures does { IfOk result (λ n. (E : Enter) → at world.old (consult E (act_of act)) ≡ at world.new (goes E n)) }
{
    if world.emit(alloc, act)? {
        host_moves(world, alloc, true)
    } else {
        Ok(Next::Replies(unknown()))
    }
}
