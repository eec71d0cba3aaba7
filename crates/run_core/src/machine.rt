// The steps of a run.
ghost use Rattle.std.specs.Prelude.{◌≡◌, IfOk};
ghost use Rattle.js_meaning.specs.State.{done, stop};
ghost use Rattle.js_meaning.specs.Run.{seen};
ghost use Rattle.run_value.specs.Trace.{ending_of};
ghost use Rattle.run_world.specs.World.{at, completion_of};
ghost use Rattle.run_plan.specs.Ask.{ask_of, task_of};
ghost use Rattle.run_plan.specs.Frame.{meaning, applies, plans, onto};
ghost use Rattle.run_core.specs.Machine.{enter_fully, run_of, after_step};

use crate::{enter_node, enter_task, resume_frame};
use run_plan::{
    Ask, Control, Frame, NodeRef, Plan, Task, discard_all, discard_completion, discard_control,
    push_plan, take_nearest,
};
use run_value::{Ending, Env};
use run_world::{Completion, Reply, World};
use std::alloc::{AllocError, Global};

// A step goes on with what is computed next, or the run ends.
pub(crate) enum Step<'a> {
    GoesOn(Box<Control<'a>>),
    Ends(Ending),
}

fn asks<'a>(
    world: &mut World<'a>,
    alloc: Global,
    frames: &mut Vec<Frame<'a>>,
    node: NodeRef<'a>,
    ask: Ask<'a>,
    env: Env<'a>,
) -> Result<Step<'a>, AllocError>
    ensures does { IfOk result (λ s. seen (at world.old (onto enter_fully frames.old.items (meaning enter_fully node.entry (ask_of ask.entry) env.entry))) ≡ after_step world.new frames.new.items s) }
{
    let plan = enter_node(world, alloc, node.node(), ask, env)?;
    let control = push_plan(frames, plan)?;
    Ok(Step::GoesOn(control))
}

// An entry costs one.
fn enters<'a>(
    world: &mut World<'a>,
    alloc: Global,
    frames: &mut Vec<Frame<'a>>,
    task: Task<'a>,
) -> Result<Step<'a>, AllocError>
    ensures does { IfOk result (λ s. seen (at world.old (onto enter_fully frames.old.items (enter_fully (task_of task.entry)))) ≡ after_step world.new frames.new.items s) }
{
    let plan = enter_task(world, alloc, task)?;
    let control = push_plan(frames, plan)?;
    Ok(Step::GoesOn(control))
}

// A frame takes a completion.
fn resumes<'a>(
    world: &mut World<'a>,
    alloc: Global,
    frames: &mut Vec<Frame<'a>>,
    frame: Frame<'a>,
    completion: Completion<'a>,
) -> Result<Step<'a>, AllocError>
    ensures does { IfOk result (λ s. seen (at world.old (onto enter_fully frames.old.items (applies enter_fully frame.entry (completion_of completion.entry)))) ≡ after_step world.new frames.new.items s) }
{
    let plan = resume_frame(world, alloc, frame, completion)?;
    let control = push_plan(frames, plan)?;
    Ok(Step::GoesOn(control))
}

// The nearest frame takes a completion. Behind the last frame nothing is said.
fn completes<'a>(
    world: &mut World<'a>,
    alloc: Global,
    frames: &mut Vec<Frame<'a>>,
    completion: Completion<'a>,
) -> Result<Step<'a>, AllocError>
    ensures does { IfOk result (λ s. seen (at world.old (onto enter_fully frames.old.items (done (completion_of completion.entry)))) ≡ after_step world.new frames.new.items s) }
{
    match take_nearest(frames) {
        Some(frame) => resumes(world, alloc, frames, frame, completion),
        None => {
            discard_completion(completion);
            Ok(Step::Ends(Ending::Uncovered))
        }
    }
}

fn next_step<'a>(
    world: &mut World<'a>,
    alloc: Global,
    frames: &mut Vec<Frame<'a>>,
    control: Control<'a>,
) -> Result<Step<'a>, AllocError>
    ensures does { IfOk result (λ s. run_of world.old frames.old.items control.entry ≡ after_step world.new frames.new.items s) }
{
    match control {
        Control::Node(node, ask, env) => asks(world, alloc, frames, node, ask, env),
        Control::Enter(task) => enters(world, alloc, frames, task),
        Control::Reply(Reply::Completes(completion)) => {
            completes(world, alloc, frames, completion)
        }
        Control::Reply(Reply::Stops(ending)) => Ok(Step::Ends(ending)),
    }
}

/// How the run of a plan ends. Should the steps pass 2^64, that is an end of memory.
pub(crate) fn go_on<'a>(
    world: &mut World<'a>,
    alloc: Global,
    plan: Plan<'a>,
) -> Result<Ending, AllocError>
    ensures does { IfOk result (λ e. seen (at world.old (plans enter_fully plan.entry)) ≡ seen (at world.new (stop (ending_of e)))) }
{
    let (control, then) = plan.into_parts();
    let mut control = control;
    let mut frames = then;
    'steps: for _ in 0..u64::MAX {
        match next_step(world, alloc, &mut frames, Box::into_inner(control)) {
            Ok(Step::GoesOn(next)) => control = next,
            Ok(Step::Ends(ending)) => {
                discard_all(frames);
                return Ok(ending);
            }
            Err(short) => {
                discard_all(frames);
                return Err(short);
            }
        }
    }
    discard_control(control);
    discard_all(frames);
    Err(AllocError)
}
