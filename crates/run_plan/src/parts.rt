// Plans from their parts.
ghost use Rattle.std.specs.Prelude.{◌≡◌, ◌∷◌, IfOk, OnOk};
ghost use Rattle.js_meaning.specs.State.{bind, done, unknown, seq, with_value, with_receiver, with_all, with_place};
ghost use Rattle.js_meaning.specs.Host.{Enter};
ghost use Rattle.js_meaning.specs.Node.{ask_maybe};
ghost use Rattle.run_world.specs.World.{replies, goes, completion_of};
ghost use Rattle.run_plan.specs.Ask.{ask_of, task_of};
ghost use Rattle.run_plan.specs.Frame.{meaning, maybe_meaning, applies, plans, controls, after_normal_of, after_statement_of, after_operand_of, after_target_of, after_values_of, after_place_of, after_completion_of};

use crate::stack::discard_ask;
use crate::{
    AfterCompletion, AfterNormal, AfterOperand, AfterPlace, AfterStatement, AfterTarget,
    AfterValues, Ask, Control, Frame, NodeRef, Plan, Task,
};
use js_tree::Node;
use run_value::{Ending, Env};
use run_world::{Completion, Next, Reply};
use std::alloc::{AllocError, Global};

fn alone<'a>(alloc: Global, control: Control<'a>) -> Result<Plan<'a>, AllocError>
    ensures { IfOk result (λ p. (E : Enter) → plans E p ≡ controls E control.entry) }
{
    let control = Box::new(alloc, control)?;
    let then = Vec::new(alloc);
    Ok(Plan { control, then })
}

/// It completed, or the run stops.
pub fn replies<'a>(alloc: Global, reply: Reply<'a>) -> Result<Plan<'a>, AllocError>
    ensures { IfOk result (λ p. (E : Enter) → plans E p ≡ replies reply.entry) }
{
    alone(alloc, Control::Reply(reply))
}

/// It completed in this way.
pub fn completes<'a>(alloc: Global, completion: Completion<'a>) -> Result<Plan<'a>, AllocError>
    ensures { IfOk result (λ p. (E : Enter) → plans E p ≡ done (completion_of completion.entry)) }
{
    replies(alloc, Reply::Completes(completion))
}

/// Nothing is said of what follows.
pub fn uncovered<'a>(alloc: Global) -> Result<Plan<'a>, AllocError>
    ensures { IfOk result (λ p. (E : Enter) → plans E p ≡ unknown) }
{
    replies(alloc, Reply::Stops(Ending::Uncovered))
}

/// An entry.
pub fn enters<'a>(alloc: Global, task: Task<'a>) -> Result<Plan<'a>, AllocError>
    ensures { IfOk result (λ p. (E : Enter) → plans E p ≡ E (task_of task.entry)) }
{
    alone(alloc, Control::Enter(task))
}

/// How it goes on where the host may have called.
pub fn goes<'a>(alloc: Global, next: Next<'a>) -> Result<Plan<'a>, AllocError>
    ensures { IfOk result (λ p. (E : Enter) → plans E p ≡ goes E next.entry) }
{
    match next {
        Next::Replies(reply) => replies(alloc, reply),
        Next::CallsBack(awaited, call) => enters(alloc, Task::CalledBack(awaited, call)),
    }
}

/// What a node does that is asked this.
pub fn asks<'a>(
    alloc: Global,
    node: &'a Node,
    ask: Ask<'a>,
    env: Env<'a>,
) -> Result<Plan<'a>, AllocError>
    ensures { IfOk result (λ p. (E : Enter) → plans E p ≡ meaning E node.now (ask_of ask.entry) env.entry) }
{
    alone(alloc, Control::Node(NodeRef::new(node), ask, env))
}

/// What a node does that is asked this, if it is there.
pub fn asks_maybe<'a>(
    alloc: Global,
    node: Option<NodeRef<'a>>,
    ask: Ask<'a>,
    env: Env<'a>,
) -> Result<Plan<'a>, AllocError>
    ensures { IfOk result (λ p. (E : Enter) → plans E p ≡ ask_maybe (maybe_meaning E node.entry) (ask_of ask.entry) env.entry) }
{
    match node {
        Some(node) => alone(alloc, Control::Node(node, ask, env)),
        None => {
            discard_ask(ask);
            completes(alloc, Completion::Normal)
        }
    }
}

// A frame that is applied when all of a plan is done.
fn under<'a>(plan: Plan<'a>, frame: Frame<'a>) -> Result<Plan<'a>, AllocError>
    ensures { IfOk result (λ p. (E : Enter) → plans E p ≡ bind (plans E plan.entry) (applies E frame.entry)) }
{
    let mut plan = plan;
    plan.then.insert(0, frame)?;
    Ok(plan)
}

/// What follows where a plan completes normally.
pub fn then_normal<'a>(
    alloc: Global,
    plan: Plan<'a>,
    after: AfterNormal<'a>,
) -> Result<Plan<'a>, AllocError>
    ensures { IfOk result (λ p. (E : Enter) → plans E p ≡ seq (plans E plan.entry) (after_normal_of E after.entry)) }
{
    let after = Box::new(alloc, after)?;
    under(plan, Frame::Normal(after))
}

/// What a statement does with the value that a plan gives.
pub fn then_statement<'a>(
    alloc: Global,
    plan: Plan<'a>,
    after: AfterStatement<'a>,
) -> Result<Plan<'a>, AllocError>
    ensures { IfOk result (λ p. (E : Enter) → plans E p ≡ with_value (plans E plan.entry) (after_statement_of E after.entry)) }
{
    let after = Box::new(alloc, after)?;
    under(plan, Frame::Statement(after))
}

/// What an expression does with the value that a plan gives.
pub fn then_operand<'a>(
    alloc: Global,
    plan: Plan<'a>,
    after: AfterOperand<'a>,
) -> Result<Plan<'a>, AllocError>
    ensures { IfOk result (λ p. (E : Enter) → plans E p ≡ with_receiver (plans E plan.entry) (after_operand_of E after.entry)) }
{
    let after = Box::new(alloc, after)?;
    under(plan, Frame::Operand(after))
}

/// What an assignment does with the value that a plan gives.
pub fn then_target<'a>(
    alloc: Global,
    plan: Plan<'a>,
    after: AfterTarget<'a>,
) -> Result<Plan<'a>, AllocError>
    ensures { IfOk result (λ p. (E : Enter) → plans E p ≡ with_value (plans E plan.entry) (after_target_of E after.entry)) }
{
    let after = Box::new(alloc, after)?;
    under(plan, Frame::Target(after))
}

/// What an expression does with the values that a plan gives.
pub fn then_values<'a>(
    alloc: Global,
    plan: Plan<'a>,
    after: AfterValues<'a>,
) -> Result<Plan<'a>, AllocError>
    ensures { IfOk result (λ p. (E : Enter) → plans E p ≡ with_all (plans E plan.entry) (after_values_of E after.entry)) }
{
    let after = Box::new(alloc, after)?;
    under(plan, Frame::Values(after))
}

/// What an expression does with the place that a plan refers to.
pub fn then_place<'a>(
    alloc: Global,
    plan: Plan<'a>,
    after: AfterPlace<'a>,
) -> Result<Plan<'a>, AllocError>
    ensures { IfOk result (λ p. (E : Enter) → plans E p ≡ with_place (plans E plan.entry) (after_place_of E after.entry)) }
{
    let after = Box::new(alloc, after)?;
    under(plan, Frame::Place(after))
}

/// What is done with any completion of a plan.
pub fn then_completion<'a>(
    alloc: Global,
    plan: Plan<'a>,
    after: AfterCompletion<'a>,
) -> Result<Plan<'a>, AllocError>
    ensures { IfOk result (λ p. (E : Enter) → plans E p ≡ bind (plans E plan.entry) (after_completion_of E after.entry)) }
{
    let after = Box::new(alloc, after)?;
    under(plan, Frame::Completion(after))
}
