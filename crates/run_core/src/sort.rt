// Which sort of completion is there (ECMA-262 6.2.4): of the one that a frame takes, or how it goes on.
ghost use Rattle.std.specs.Prelude.{◌≡◌, List};
ghost use Rattle.js_meaning.specs.Value as meant;
ghost use Rattle.js_meaning.specs.State as state;
ghost use Rattle.js_meaning.specs.State.{M, if_normal, if_gives, if_gives_all, if_refers};
ghost use Rattle.run_world.specs.World.{completion_of};
ghost use Rattle.run_core.specs.Sorted.{otherwise, given_or, all_or, place_or};

use run_value::Value;
use run_world::{Completion, Place, Reply, unknown};

/// `None` where it is normal.
pub(crate) fn if_normal<'a>(completion: Completion<'a>) -> Option<Reply<'a>>
    ensures { (m : M) → if_normal m (completion_of completion.entry) ≡ otherwise result m }
{
    match completion {
        Completion::Normal => None,
        Completion::Breaks(label) => Some(Reply::Completes(Completion::Breaks(label))),
        Completion::Continues(label) => Some(Reply::Completes(Completion::Continues(label))),
        Completion::Returns(value) => Some(Reply::Completes(Completion::Returns(value))),
        Completion::Throws(value) => Some(Reply::Completes(Completion::Throws(value))),
        Completion::Gives(..) => Some(unknown()),
        Completion::GivesAll(_) => Some(unknown()),
        Completion::Refers(_) => Some(unknown()),
    }
}

/// The value that it gives, and its receiver.
pub(crate) fn if_gives<'a>(completion: Completion<'a>) -> Result<(Value<'a>, Value<'a>), Reply<'a>>
    ensures { (k : meant.Value → meant.Value → M) → if_gives k (completion_of completion.entry) ≡ given_or result k }
{
    match completion {
        Completion::Gives(value, this) => Ok((value, this)),
        Completion::Throws(value) => Err(Reply::Completes(Completion::Throws(value))),
        _ => Err(unknown()),
    }
}

/// The values that it gives.
pub(crate) fn if_gives_all<'a>(completion: Completion<'a>) -> Result<Vec<Value<'a>>, Reply<'a>>
    ensures { (k : List meant.Value → M) → if_gives_all k (completion_of completion.entry) ≡ all_or result k }
{
    match completion {
        Completion::GivesAll(values) => Ok(values),
        Completion::Throws(value) => Err(Reply::Completes(Completion::Throws(value))),
        _ => Err(unknown()),
    }
}

/// The place that it refers to.
pub(crate) fn if_refers<'a>(completion: Completion<'a>) -> Result<Place<'a>, Reply<'a>>
    ensures { (k : state.Place → M) → if_refers k (completion_of completion.entry) ≡ place_or result k }
{
    match completion {
        Completion::Refers(place) => Ok(place),
        Completion::Throws(value) => Err(Reply::Completes(Completion::Throws(value))),
        _ => Err(unknown()),
    }
}
