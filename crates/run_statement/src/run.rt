// The run of a module, and what the host sees of it (ECMA-262 16.2.1.6.5).
ghost use Rattle.std.specs.Prelude.{◌≡◌, false, IfOk};
ghost use Rattle.js_meaning.specs.Trace as trace;
ghost use Rattle.js_meaning.specs.State.{stop, with_value};
ghost use Rattle.js_meaning.specs.Show.{show, emit, with_shown_exports};
ghost use Rattle.js_meaning.specs.Host.{Enter, host_moves, report, consult};
ghost use Rattle.js_meaning.specs.Module.{load_all};
ghost use Rattle.js_meaning.specs.Run.{finish, finally};
ghost use Rattle.run_value.specs.View.{value_of};
ghost use Rattle.run_value.specs.Trace.{act_of};
ghost use Rattle.run_world.specs.World.{at, completion_of};
ghost use Rattle.run_plan.specs.Held.{texts_of};
ghost use Rattle.run_plan.specs.Frame.{plans};
ghost use Rattle.run_statement.specs.Sources.{texts_split};

use run_operations::{consults, host_moves};
use run_plan::{AfterStatement, Plan, completes, goes, replies, then_statement, uncovered};
use run_value::{Act, Ending, Value};
use run_world::{Completion, Reply, World};
use std::alloc::{AllocError, Global};

// What the host answers is of no use; what it throws ends the run of the module.
fn load_first<'a>(
    world: &mut World<'a>,
    alloc: Global,
    first: &str,
    others: Vec<&'a str>,
) -> Result<Plan<'a>, AllocError>
    ensures does { IfOk result (λ p. (E : Enter) → at world.old (with_value (consult E (trace.Act.load first.now)) (λ v. load_all E (texts_of others.entry.items))) ≡ at world.new (plans E p)) }
{
    let text = String::from_str(alloc, first)?;
    let plan = consults(world, alloc, Act::Load { source: text })?;
    then_statement(alloc, plan, AfterStatement::Load(others))
}

fn split_first<'a>(sources: Vec<&'a str>) -> Option<(&'a str, Vec<&'a str>)>
    ensures { texts_split result ≡ texts_of sources.entry.items }
{
    let mut others = sources;
    if others.is_empty() {
        None
    } else {
        let first = others.remove(0);
        Some((first, others))
    }
}

/// Modules that are asked for, one after another (16.2.1.5).
#[tactic(auto, unfolding(js_meaning::specs::Module::load_all))]
pub fn load_all<'a>(
    world: &mut World<'a>,
    alloc: Global,
    sources: Vec<&'a str>,
) -> Result<Plan<'a>, AllocError>
    ensures does { IfOk result (λ p. (E : Enter) → at world.old (load_all E (texts_of sources.entry.items)) ≡ at world.new (plans E p)) }
{
    match split_first(sources) {
        Some((first, others)) => load_first(world, alloc, first, others),
        None => completes(alloc, Completion::Normal),
    }
}

// An act, and then the host's moves.
fn tells<'a>(
    world: &mut World<'a>,
    alloc: Global,
    act: Act,
    awaited: bool,
) -> Result<Plan<'a>, AllocError>
    ensures does { IfOk result (λ p. (E : Enter) → at world.old (emit (act_of act) (host_moves E awaited)) ≡ at world.new (plans E p)) }
{
    if world.emit(alloc, act)? {
        let next = host_moves(world, alloc, awaited)?;
        goes(alloc, next)
    } else {
        uncovered(alloc)
    }
}

fn returned<'a>(
    world: &mut World<'a>,
    alloc: Global,
    value: &Value<'a>,
    awaited: bool,
) -> Result<Plan<'a>, AllocError>
    ensures does { IfOk result (λ p. (E : Enter) → at world.old (show (value_of value.now) (λ x. emit (trace.Act.returned x) (host_moves E awaited))) ≡ at world.new (plans E p)) }
{
    let shown = world.show(alloc, value)?;
    tells(world, alloc, Act::Returned { value: shown }, awaited)
}

fn threw<'a>(
    world: &mut World<'a>,
    alloc: Global,
    value: &Value<'a>,
    awaited: bool,
) -> Result<Plan<'a>, AllocError>
    ensures does { IfOk result (λ p. (E : Enter) → at world.old (show (value_of value.now) (λ x. emit (trace.Act.threw x) (host_moves E awaited))) ≡ at world.new (plans E p)) }
{
    let shown = world.show(alloc, value)?;
    tells(world, alloc, Act::Threw { value: shown }, awaited)
}

fn failed<'a>(
    world: &mut World<'a>,
    alloc: Global,
    value: &Value<'a>,
) -> Result<Plan<'a>, AllocError>
    ensures does { IfOk result (λ p. (E : Enter) → at world.old (show (value_of value.now) (λ x. emit (trace.Act.failed x) (host_moves E false))) ≡ at world.new (plans E p)) }
{
    let shown = world.show(alloc, value)?;
    tells(world, alloc, Act::Failed { thrown: shown }, false)
}

/// What the host sees of a call that it made.
pub(crate) fn report<'a>(
    world: &mut World<'a>,
    alloc: Global,
    awaited: bool,
    completion: &Completion<'a>,
) -> Result<Plan<'a>, AllocError>
    ensures does { IfOk result (λ p. (E : Enter) → at world.old (report (host_moves E awaited) (completion_of completion.now)) ≡ at world.new (plans E p)) }
{
    match completion {
        Completion::Gives(value, _) => returned(world, alloc, value, awaited),
        Completion::Throws(value) => threw(world, alloc, value, awaited),
        _ => uncovered(alloc),
    }
}

/// What the host sees of the module's own run, and its moves after that.
pub(crate) fn finish<'a>(
    world: &mut World<'a>,
    alloc: Global,
    completion: &Completion<'a>,
) -> Result<Plan<'a>, AllocError>
    ensures does { IfOk result (λ p. (E : Enter) → at world.old (finish E (completion_of completion.now)) ≡ at world.new (plans E p)) }
{
    match completion {
        Completion::Normal => tells(world, alloc, Act::Finished, false),
        Completion::Throws(value) => failed(world, alloc, value),
        _ => uncovered(alloc),
    }
}

fn end<'a>(world: &mut World<'a>, alloc: Global) -> Result<Plan<'a>, AllocError>
    ensures does { IfOk result (λ p. (E : Enter) → at world.old (with_shown_exports (λ exports. stop (trace.Ending.ended exports))) ≡ at world.new (plans E p)) }
{
    let exports = world.shown_exports(alloc)?;
    match exports {
        Some(exports) => replies(alloc, Reply::Stops(Ending::Ended(exports))),
        None => uncovered(alloc),
    }
}

/// The run ends, with the exports of that moment.
pub(crate) fn finally<'a>(
    world: &mut World<'a>,
    alloc: Global,
    completion: &Completion<'a>,
) -> Result<Plan<'a>, AllocError>
    ensures does { IfOk result (λ p. (E : Enter) → at world.old (finally (completion_of completion.now)) ≡ at world.new (plans E p)) }
{
    match completion {
        Completion::Normal => end(world, alloc),
        _ => uncovered(alloc),
    }
}
