// The whole of an input but its program.
ghost use Rattle.std.specs.Prelude.{◌≡◌, codes, option_map, IfOk, IfErr};
ghost use Rattle.serde_json.specs.View.{view, items_view};
ghost use Rattle.run_script.specs.Script as meant;
ghost use Rattle.run_script.specs.Held.{global_of, globals_of};
ghost use Rattle.run_script.specs.Answer.{Gives, Fails};

use crate::fault::{Field, ScriptError};
use crate::list::are_distinct;
use crate::moves::moves_at;
use crate::value::{global_name, plain, shared, two};
use run_value::Plain;
use run_world::{Globals, Script};
use serde_json::Value;
use std::alloc::{AllocError, Global};
use std::rc::Rc;

// The greatest bound.
const MAX_BOUND: u64 = 1_048_576;

/// What a run is given: the script, and how many entries there may be.
pub struct Input {
    pub script: Script,
    pub bound: u32,
}

impl Drop for Input {
    fn drop(self) {
        let Input {
            script: _,
            bound: _,
        } = self;
    }
}

// ---- globals

// `[NAME,V]`
fn global(alloc: Global, value: &Value) -> Result<Option<(Rc<String>, Plain)>, AllocError>
    ensures { IfOk result (λ o. meant.global_in (view value.now) ≡ option_map global_of o) }
{
    let Some((name, value)) = two(value) else {
        return Ok(None);
    };
    let Some(name) = global_name(name) else {
        return Ok(None);
    };
    let Some(plain) = plain(alloc, value)? else {
        return Ok(None);
    };
    let name = shared(alloc, name)?;
    Ok(Some((name, plain)))
}

fn all_globals(alloc: Global, values: &[Value]) -> Result<Option<Globals>, AllocError>
    ensures { IfOk result (λ o. meant.all_in meant.global_in (items_view values.now) ≡ option_map (λ g. globals_of g.pairs.items) o) }
{
    let mut pairs = Vec::new(alloc);
    for value in values {
        match global(alloc, value)? {
            Some(global) => pairs.push(global)?,
            None => return Ok(None),
        }
    }
    Ok(Some(Globals { pairs }))
}

fn globals(alloc: Global, value: &Value) -> Result<Option<Globals>, AllocError>
    ensures { IfOk result (λ o. meant.globals_in (view value.now) ≡ option_map (λ g. globals_of g.pairs.items) o) }
{
    let Value::Array(values) = value else {
        return Ok(None);
    };
    let Some(globals) = all_globals(alloc, values.as_slice())? else {
        return Ok(None);
    };
    if are_distinct(globals.pairs.as_slice()) {
        Ok(Some(globals))
    } else {
        Ok(None)
    }
}

fn globals_at(alloc: Global, value: &Value) -> Result<Option<Globals>, AllocError>
    ensures { IfOk result (λ o. meant.member_in (codes "globals") meant.globals_in (view value.now) ≡ option_map (λ g. globals_of g.pairs.items) o) }
{
    match value.get("globals") {
        Some(member) => globals(alloc, member),
        None => Ok(None),
    }
}

// ---- the whole

fn bound(value: &Value) -> Option<u32>
    ensures { meant.bound_in (view value.now) ≡ result }
{
    match value {
        Value::Number(number) => match number.as_u64() {
            Some(n) if n <= MAX_BOUND => Some(n as u32),
            _ => None,
        },
        _ => None,
    }
}

fn bound_at(value: &Value) -> Option<u32>
    ensures { meant.member_in (codes "n") meant.bound_in (view value.now) ≡ result }
{
    match value.get("n") {
        Some(member) => bound(member),
        None => None,
    }
}

fn script_at(value: &Value) -> Option<&Value>
    ensures { meant.member_in (codes "script") meant.object_in (view value.now) ≡ option_map (λ s. view s.now) result }
{
    match value.get("script") {
        Some(script) if matches!(script, Value::Object(_)) => Some(script),
        _ => None,
    }
}

/// The script and the bound that a JSON value asks for.
#[tactic(auto, unfolding(crate::specs::Script::read_script))]
pub fn read_script(alloc: Global, value: &Value) -> Result<Input, ScriptError>
    ensures ok { IfOk result (λ i. Gives i (meant.read_script (view value.now))) }
    ensures err { IfErr result (λ e. Fails e (meant.read_script (view value.now))) }
{
    let Some(script) = script_at(value) else {
        return Err(ScriptError::Bad {
            field: Field::Script,
        });
    };
    let Some(globals) = globals_at(alloc, script)? else {
        return Err(ScriptError::Bad {
            field: Field::Globals,
        });
    };
    let Some(moves) = moves_at(alloc, script)? else {
        return Err(ScriptError::Bad {
            field: Field::Moves,
        });
    };
    let Some(bound) = bound_at(value) else {
        return Err(ScriptError::Bad {
            field: Field::Bound,
        });
    };
    Ok(Input {
        script: Script { globals, moves },
        bound,
    })
}
