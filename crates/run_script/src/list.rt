// Lists of values, and which lists of globals have each name once.
ghost use Rattle.std.specs.Prelude.{◌≡◌, option_map, IfOk};
ghost use Rattle.serde_json.specs.View.{view, items_view};
ghost use Rattle.run_world.specs.World.{givens_of};
ghost use Rattle.run_script.specs.Script as meant;
ghost use Rattle.run_script.specs.Held.{globals_of};

use crate::value::given;
use run_value::{Given, Plain};
use serde_json::Value;
use std::alloc::{AllocError, Global};
use std::rc::Rc;

fn givens(alloc: Global, values: &[Value]) -> Result<Option<Vec<Given>>, AllocError>
    ensures { IfOk result (λ o. meant.all_in meant.given_in (items_view values.now) ≡ option_map (λ v. givens_of v.items) o) }
{
    let mut all = Vec::new(alloc);
    for value in values {
        match given(alloc, value)? {
            Some(given) => all.push(given)?,
            None => return Ok(None),
        }
    }
    Ok(Some(all))
}

pub(crate) fn givens_at(
    alloc: Global,
    value: &Value,
    name: &str,
) -> Result<Option<Vec<Given>>, AllocError>
    ensures { IfOk result (λ o. meant.member_in name.now (meant.list_in meant.given_in) (view value.now) ≡ option_map (λ v. givens_of v.items) o) }
{
    match value.get(name) {
        Some(Value::Array(values)) => givens(alloc, values.as_slice()),
        _ => Ok(None),
    }
}

fn is_named(name: &str, globals: &[(Rc<String>, Plain)]) -> bool
    ensures { result ≡ meant.is_named name.now (globals_of globals.now) }
{
    for global in globals {
        if name == global.0.as_str() {
            return true;
        }
    }
    false
}

// Whether no name comes twice.
pub(crate) fn are_distinct(globals: &[(Rc<String>, Plain)]) -> bool
    ensures { result ≡ meant.are_distinct (globals_of globals.now) }
{
    let mut rest = globals;
    while let [first, others @ ..] = rest {
        if is_named(first.0.as_str(), others) {
            return false;
        }
        rest = others;
    }
    true
}
