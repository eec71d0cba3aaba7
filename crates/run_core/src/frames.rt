// What the nearest frame does with the completion that is there.
ghost use Rattle.std.specs.Prelude.{◌≡◌, IfOk};
ghost use Rattle.js_meaning.specs.State.{if_normal, if_gives, if_gives_all, if_refers};
ghost use Rattle.js_meaning.specs.Host.{Enter};
ghost use Rattle.run_world.specs.World.{at, completion_of};
ghost use Rattle.run_plan.specs.Frame.{plans, applies, after_normal_of, after_statement_of, after_operand_of, after_target_of, after_values_of, after_place_of};

use crate::sort::{if_gives, if_gives_all, if_normal, if_refers};
use run_expression::{resume_operand, resume_place, resume_target, resume_values};
use run_plan::{
    AfterNormal, AfterOperand, AfterPlace, AfterStatement, AfterTarget, AfterValues, Frame, Plan,
    discard, replies,
};
use run_statement::{resume_completion, resume_normal, resume_statement};
use run_world::{Completion, World};
use std::alloc::{AllocError, Global};

fn go_on<'a>(
    world: &mut World<'a>,
    alloc: Global,
    after: Box<AfterNormal<'a>>,
    completion: Completion<'a>,
) -> Result<Plan<'a>, AllocError>
    ensures does { IfOk result (λ p. (E : Enter) → at world.old (if_normal (after_normal_of E after.entry.value) (completion_of completion.entry)) ≡ at world.new (plans E p)) }
{
    match if_normal(completion) {
        None => resume_normal(world, alloc, Box::into_inner(after)),
        Some(reply) => {
            discard(Frame::Normal(after));
            replies(alloc, reply)
        }
    }
}

fn take_value<'a>(
    world: &mut World<'a>,
    alloc: Global,
    after: Box<AfterStatement<'a>>,
    completion: Completion<'a>,
) -> Result<Plan<'a>, AllocError>
    ensures does { IfOk result (λ p. (E : Enter) → at world.old (if_gives (λ v this. after_statement_of E after.entry.value v) (completion_of completion.entry)) ≡ at world.new (plans E p)) }
{
    match if_gives(completion) {
        Ok((value, _)) => resume_statement(world, alloc, Box::into_inner(after), value),
        Err(reply) => {
            discard(Frame::Statement(after));
            replies(alloc, reply)
        }
    }
}

fn take_operand<'a>(
    world: &mut World<'a>,
    alloc: Global,
    after: Box<AfterOperand<'a>>,
    completion: Completion<'a>,
) -> Result<Plan<'a>, AllocError>
    ensures does { IfOk result (λ p. (E : Enter) → at world.old (if_gives (after_operand_of E after.entry.value) (completion_of completion.entry)) ≡ at world.new (plans E p)) }
{
    match if_gives(completion) {
        Ok((value, this)) => resume_operand(world, alloc, Box::into_inner(after), value, this),
        Err(reply) => {
            discard(Frame::Operand(after));
            replies(alloc, reply)
        }
    }
}

fn take_target<'a>(
    world: &mut World<'a>,
    alloc: Global,
    after: Box<AfterTarget<'a>>,
    completion: Completion<'a>,
) -> Result<Plan<'a>, AllocError>
    ensures does { IfOk result (λ p. (E : Enter) → at world.old (if_gives (λ v this. after_target_of E after.entry.value v) (completion_of completion.entry)) ≡ at world.new (plans E p)) }
{
    match if_gives(completion) {
        Ok((value, _)) => resume_target(world, alloc, Box::into_inner(after), value),
        Err(reply) => {
            discard(Frame::Target(after));
            replies(alloc, reply)
        }
    }
}

fn take_values<'a>(
    world: &mut World<'a>,
    alloc: Global,
    after: Box<AfterValues<'a>>,
    completion: Completion<'a>,
) -> Result<Plan<'a>, AllocError>
    ensures does { IfOk result (λ p. (E : Enter) → at world.old (if_gives_all (after_values_of E after.entry.value) (completion_of completion.entry)) ≡ at world.new (plans E p)) }
{
    match if_gives_all(completion) {
        Ok(values) => resume_values(world, alloc, Box::into_inner(after), values),
        Err(reply) => {
            discard(Frame::Values(after));
            replies(alloc, reply)
        }
    }
}

fn take_place<'a>(
    world: &mut World<'a>,
    alloc: Global,
    after: Box<AfterPlace<'a>>,
    completion: Completion<'a>,
) -> Result<Plan<'a>, AllocError>
    ensures does { IfOk result (λ p. (E : Enter) → at world.old (if_refers (after_place_of E after.entry.value) (completion_of completion.entry)) ≡ at world.new (plans E p)) }
{
    match if_refers(completion) {
        Ok(place) => resume_place(world, alloc, Box::into_inner(after), place),
        Err(reply) => {
            discard(Frame::Place(after));
            replies(alloc, reply)
        }
    }
}

/// What the nearest frame does with the completion that is there.
pub fn resume_frame<'a>(
    world: &mut World<'a>,
    alloc: Global,
    frame: Frame<'a>,
    completion: Completion<'a>,
) -> Result<Plan<'a>, AllocError>
    ensures does { IfOk result (λ p. (E : Enter) → at world.old (applies E frame.entry (completion_of completion.entry)) ≡ at world.new (plans E p)) }
{
    match frame {
        Frame::Normal(after) => go_on(world, alloc, after, completion),
        Frame::Statement(after) => take_value(world, alloc, after, completion),
        Frame::Operand(after) => take_operand(world, alloc, after, completion),
        Frame::Target(after) => take_target(world, alloc, after, completion),
        Frame::Values(after) => take_values(world, alloc, after, completion),
        Frame::Place(after) => take_place(world, alloc, after, completion),
        Frame::Completion(after) => resume_completion(
            world,
            alloc,
            Box::into_inner(after),
            completion,
        ),
    }
}
