// Asking the host, and what is given or thrown without it.
ghost use Rattle.std.specs.Prelude.{◌≡◌, IfOk};
ghost use Rattle.js_meaning.specs.State.{M, Completion, bind, raise};
ghost use Rattle.js_meaning.specs.Host.{Enter, consult};
ghost use Rattle.run_value.specs.View.{error_of};
ghost use Rattle.run_value.specs.Given as value;
ghost use Rattle.run_value.specs.Trace.{act_of};
ghost use Rattle.run_world.specs.World.{at};
ghost use Rattle.run_plan.specs.Frame.{plans};

use crate::consult;
use run_plan::{Plan, completes, goes, replies, uncovered};
use run_value::{Act, ErrorKind, Value};
use run_world::{World, gives};
use std::alloc::{AllocError, Global};

/// An act whose outcome the host gives.
pub fn consults<'a>(world: &mut World<'a>, alloc: Global, act: Act) -> Result<Plan<'a>, AllocError>
    ensures does { IfOk result (λ p. (E : Enter) → at world.old (consult E (act_of act)) ≡ at world.new (plans E p)) }
    ensures follows { IfOk result (λ p. (E : Enter) (k : Completion → M) → at world.old (bind (consult E (act_of act)) k) ≡ at world.new (bind (plans E p) k)) }
{
    let next = consult(world, alloc, act)?;
    goes(alloc, next)
}

/// A value that is there, or nothing is said of what follows.
pub fn given<'a>(alloc: Global, found: Option<Value<'a>>) -> Result<Plan<'a>, AllocError>
    ensures { IfOk result (λ p. (E : Enter) → plans E p ≡ value.gives found.entry) }
{
    match found {
        Some(found) => replies(alloc, gives(found)),
        None => uncovered(alloc),
    }
}

/// An error of this kind is thrown.
pub fn throws<'a>(
    world: &mut World<'a>,
    alloc: Global,
    kind: ErrorKind,
) -> Result<Plan<'a>, AllocError>
    ensures does { IfOk result (λ p. (E : Enter) → at world.old (raise (error_of kind)) ≡ at world.new (plans E p)) }
{
    let thrown = world.raise(kind)?;
    completes(alloc, thrown)
}
