// Frames one above the other, the nearest last.
ghost use Rattle.std.specs.Prelude.{◌≡◌, ◌∷◌, ◌++◌, [], List, IfOk, OnOk};
ghost use Rattle.js_meaning.specs.Host.{Enter};
ghost use Rattle.run_plan.specs.Frame.{plans, controls, onto};
ghost use Rattle.run_plan.specs.Taken.{taken};

use crate::{Ask, Control, Frame, Plan};
use run_world::Completion;
use std::alloc::AllocError;

/// Lets a frame go that takes no part in what follows.
pub fn discard<'a>(frame: Frame<'a>) {}

/// Lets frames go.
pub fn discard_all<'a>(frames: Vec<Frame<'a>>) {}

/// Lets go what would be computed next.
pub fn discard_control<'a>(control: Box<Control<'a>>) {}

/// Lets go what a node would be asked.
pub fn discard_ask<'a>(ask: Ask<'a>) {}

/// Lets a completion go that was looked at.
pub fn discard_completion<'a>(completion: Completion<'a>) {}

/// The nearest frame, which is taken away.
pub fn take_nearest<'a>(frames: &mut Vec<Frame<'a>>) -> Option<Frame<'a>>
    ensures { frames.old.items ≡ taken frames.new.items result }
{
    frames.pop()
}

/// Puts the frames of a plan onto others, and answers what is computed next.
pub fn push_plan<'a>(
    frames: &mut Vec<Frame<'a>>,
    plan: Plan<'a>,
) -> Result<Box<Control<'a>>, AllocError>
    ensures onto { IfOk result (λ c. (E : Enter) → onto E frames.old.items (plans E plan.entry) ≡ onto E frames.new.items (controls E c.value)) }
{
    let (control, then) = plan.into_parts();
    push_all(frames, then)?;
    Ok(control)
}

fn push_all<'a>(frames: &mut Vec<Frame<'a>>, others: Vec<Frame<'a>>) -> Result<(), AllocError>
    ensures put { OnOk result (frames.new.items ≡ frames.old.items ++ others.entry.items) }
{
    for other in others {
        frames.push(other)?;
    }
    Ok(())
}
