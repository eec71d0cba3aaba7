// What is done with a completion of any sort.
ghost use Rattle.std.specs.Prelude.{◌≡◌, [], IfOk};
ghost use Rattle.js_meaning.specs.State.{bind};
ghost use Rattle.js_meaning.specs.Host.{Enter};
ghost use Rattle.js_meaning.specs.Node.{run, ask_maybe};
ghost use Rattle.js_meaning.specs.Statement.{after_block, after_finally};
ghost use Rattle.js_meaning.specs.Meaning.{after_call};
ghost use Rattle.run_world.specs.World.{at, completion_of, replies};
ghost use Rattle.run_plan.specs.Frame.{maybe_meaning, plans, after_completion_of};

use crate::run::{finally, finish, report};
use crate::turn::{after_label, after_switch, end_init, end_turn};
use run_plan::{
    AfterCompletion, Ask, Labels, NodeRef, Plan, asks, asks_maybe, completes, discard_completion,
    replies, then_completion,
};
use run_value::{Env, Plain, Value};
use run_world::{Completion, Reply, World, gives, unknown};
use std::alloc::{AllocError, Global};

// The handler of a `try` takes what its block threw (14.15.3).
fn after_block<'a>(
    alloc: Global,
    handler: Option<NodeRef<'a>>,
    env: Env<'a>,
    completion: Completion<'a>,
) -> Result<Plan<'a>, AllocError>
    ensures { IfOk result (λ p. (E : Enter) → plans E p ≡ after_block (maybe_meaning E handler.entry) env.entry (completion_of completion.entry)) }
{
    match handler {
        Some(handler) => match completion {
            Completion::Throws(value) => asks(alloc, handler.node(), Ask::Take(value), env),
            other => completes(alloc, other),
        },
        None => completes(alloc, completion),
    }
}

fn run_finalizer<'a>(
    alloc: Global,
    finalizer: Option<NodeRef<'a>>,
    env: Env<'a>,
    completion: Completion<'a>,
) -> Result<Plan<'a>, AllocError>
    ensures { IfOk result (λ p. (E : Enter) → plans E p ≡ bind (ask_maybe (maybe_meaning E finalizer.entry) (run []) env.entry) (after_finally (completion_of completion.entry))) }
{
    let plan = asks_maybe(alloc, finalizer, Ask::Run(Labels::none()), env)?;
    then_completion(alloc, plan, AfterCompletion::Finalized(completion))
}

// A normal end of `finally` keeps what was before, any other stands in its place.
fn after_finally<'a>(before: Completion<'a>, completion: Completion<'a>) -> Reply<'a>
    ensures { replies result ≡ after_finally (completion_of before.entry) (completion_of completion.entry) }
{
    match completion {
        Completion::Normal => Reply::Completes(before),
        other => Reply::Completes(other),
    }
}

// What a call gives.
fn after_call<'a>(completion: Completion<'a>) -> Reply<'a>
    ensures { replies result ≡ after_call (completion_of completion.entry) }
{
    match completion {
        Completion::Normal => gives(Value::Plain(Plain::Undefined)),
        Completion::Returns(value) => gives(value),
        Completion::Gives(value, _) => gives(value),
        Completion::Throws(value) => Reply::Completes(Completion::Throws(value)),
        _ => unknown(),
    }
}

/// What is done with a completion of any sort.
pub fn resume_completion<'a>(
    world: &mut World<'a>,
    alloc: Global,
    frame: AfterCompletion<'a>,
    completion: Completion<'a>,
) -> Result<Plan<'a>, AllocError>
    ensures does { IfOk result (λ p. (E : Enter) → at world.old (after_completion_of E frame.entry (completion_of completion.entry)) ≡ at world.new (plans E p)) }
{
    match frame {
        AfterCompletion::Label(label) => replies(alloc, after_label(label, completion)),
        AfterCompletion::Turn(kind, nodes, labels, env) => {
            end_turn(world, alloc, kind, &nodes, labels, env, completion)
        }
        AfterCompletion::Init(nodes, labels, env) => {
            end_init(world, alloc, &nodes, labels, env, completion)
        }
        AfterCompletion::Cases => replies(alloc, after_switch(completion)),
        AfterCompletion::Handler(handler, env) => after_block(alloc, handler, env, completion),
        AfterCompletion::Finalizer(finalizer, env) => {
            run_finalizer(alloc, finalizer, env, completion)
        }
        AfterCompletion::Finalized(before) => { replies(alloc, after_finally(before, completion)) }
        AfterCompletion::Call => replies(alloc, after_call(completion)),
        AfterCompletion::Report(awaited) => {
            let plan = report(world, alloc, awaited, &completion);
            discard_completion(completion);
            plan
        }
        AfterCompletion::Finish => {
            let plan = finish(world, alloc, &completion);
            discard_completion(completion);
            plan
        }
        AfterCompletion::Finally => {
            let plan = finally(world, alloc, &completion);
            discard_completion(completion);
            plan
        }
    }
}
