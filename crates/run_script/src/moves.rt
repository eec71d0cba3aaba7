// Moves of the host.
ghost use Rattle.std.specs.Prelude.{◌≡◌, codes, option_map, IfOk};
ghost use Rattle.serde_json.specs.View.{view, items_view};
ghost use Rattle.run_world.specs.World.{move_of, moves_of};
ghost use Rattle.run_script.specs.Script as meant;

use crate::list::givens_at;
use crate::value::{given_at, global_name, has_members, natural_at, shared, text, two};
use run_world::{Move, Moves};
use serde_json::Value;
use std::alloc::{AllocError, Global};

// `{"args":[V,..],"call":K,"this":V}`
fn call(alloc: Global, value: &Value) -> Result<Option<Move>, AllocError>
    ensures { IfOk result (λ o. meant.call_in (view value.now) ≡ option_map move_of o) }
{
    if !has_members(value, 3) {
        return Ok(None);
    }
    let Some(callee) = natural_at(value, "call") else {
        return Ok(None);
    };
    let Some(this) = given_at(alloc, value, "this")? else {
        return Ok(None);
    };
    let Some(arguments) = givens_at(alloc, value, "args")? else {
        return Ok(None);
    };
    let callee = callee as usize;
    Ok(Some(Move::CallOwn {
        callee,
        this,
        arguments,
    }))
}

fn global_name_at<'a>(value: &'a Value, name: &str) -> Option<&'a str>
    ensures { meant.member_in name.now meant.global_name_in (view value.now) ≡ option_map (λ s. s.now) result }
{
    match value.get(name) {
        Some(member) => global_name(member),
        None => None,
    }
}

// `{"setGlobal":NAME,"value":V}`
fn set_global(alloc: Global, value: &Value) -> Result<Option<Move>, AllocError>
    ensures { IfOk result (λ o. meant.set_global_in (view value.now) ≡ option_map move_of o) }
{
    if !has_members(value, 2) {
        return Ok(None);
    }
    let Some(name) = global_name_at(value, "setGlobal") else {
        return Ok(None);
    };
    let Some(given) = given_at(alloc, value, "value")? else {
        return Ok(None);
    };
    let name = shared(alloc, name)?;
    Ok(Some(Move::SetGlobal { name, value: given }))
}

fn text_at<'a>(value: &'a Value, name: &str) -> Option<&'a str>
    ensures { meant.member_in name.now meant.text_in (view value.now) ≡ option_map (λ s. s.now) result }
{
    match value.get(name) {
        Some(member) => text(member),
        None => None,
    }
}

// `{"removeGlobal":NAME}`
fn remove_global(alloc: Global, value: &Value) -> Result<Option<Move>, AllocError>
    ensures { IfOk result (λ o. meant.remove_global_in (view value.now) ≡ option_map move_of o) }
{
    if !has_members(value, 1) {
        return Ok(None);
    }
    let Some(name) = text_at(value, "removeGlobal") else {
        return Ok(None);
    };
    let name = shared(alloc, name)?;
    Ok(Some(Move::RemoveGlobal { name }))
}

// The source and the name of an import.
fn import_names(value: &Value) -> Option<(&str, &str)>
    ensures { meant.two_in meant.importing meant.text_in meant.text_in (view value.now) ≡ option_map (λ p. meant.importing p.0.now p.1.now) result }
{
    let (source, name) = two(value)?;
    let source = text(source)?;
    let name = text(name)?;
    Some((source, name))
}

fn import_at(value: &Value) -> Option<(&str, &str)>
    ensures { meant.member_in (codes "setImport") (meant.two_in meant.importing meant.text_in meant.text_in) (view value.now) ≡ option_map (λ p. meant.importing p.0.now p.1.now) result }
{
    match value.get("setImport") {
        Some(member) => import_names(member),
        None => None,
    }
}

// `{"setImport":[SOURCE,NAME],"value":V}`
fn set_import(alloc: Global, value: &Value) -> Result<Option<Move>, AllocError>
    ensures { IfOk result (λ o. meant.set_import_in (view value.now) ≡ option_map move_of o) }
{
    if !has_members(value, 2) {
        return Ok(None);
    }
    let Some((source, name)) = import_at(value) else {
        return Ok(None);
    };
    let Some(given) = given_at(alloc, value, "value")? else {
        return Ok(None);
    };
    let source = shared(alloc, source)?;
    let name = shared(alloc, name)?;
    Ok(Some(Move::SetImport {
        source,
        name,
        value: Some(given),
    }))
}

// `{"setImport":[SOURCE,NAME]}`
fn unset_import(alloc: Global, value: &Value) -> Result<Option<Move>, AllocError>
    ensures { IfOk result (λ o. meant.unset_import_in (view value.now) ≡ option_map move_of o) }
{
    if !has_members(value, 1) {
        return Ok(None);
    }
    let Some((source, name)) = import_at(value) else {
        return Ok(None);
    };
    let source = shared(alloc, source)?;
    let name = shared(alloc, name)?;
    Ok(Some(Move::SetImport {
        source,
        name,
        value: None,
    }))
}

// `{"answer":V}`
fn answer(alloc: Global, value: &Value) -> Result<Option<Move>, AllocError>
    ensures { IfOk result (λ o. meant.answer_in (view value.now) ≡ option_map move_of o) }
{
    if !has_members(value, 1) {
        return Ok(None);
    }
    match given_at(alloc, value, "answer")? {
        Some(value) => Ok(Some(Move::Answer { value })),
        None => Ok(None),
    }
}

// `{"throw":V}`
fn refusal(alloc: Global, value: &Value) -> Result<Option<Move>, AllocError>
    ensures { IfOk result (λ o. meant.throw_in (view value.now) ≡ option_map move_of o) }
{
    if !has_members(value, 1) {
        return Ok(None);
    }
    match given_at(alloc, value, "throw")? {
        Some(value) => Ok(Some(Move::Refuse { value })),
        None => Ok(None),
    }
}

fn reply(alloc: Global, value: &Value) -> Result<Option<Move>, AllocError>
    ensures { IfOk result (λ o. meant.either_in (meant.answer_in (view value.now)) (meant.throw_in (view value.now)) ≡ option_map move_of o) }
{
    match answer(alloc, value)? {
        Some(found) => Ok(Some(found)),
        None => refusal(alloc, value),
    }
}

fn import_or_reply(alloc: Global, value: &Value) -> Result<Option<Move>, AllocError>
    ensures { IfOk result (λ o. meant.either_in (meant.set_import_in (view value.now)) (meant.either_in (meant.unset_import_in (view value.now)) (meant.either_in (meant.answer_in (view value.now)) (meant.throw_in (view value.now)))) ≡ option_map move_of o) }
{
    if let Some(found) = set_import(alloc, value)? {
        return Ok(Some(found));
    }
    match unset_import(alloc, value)? {
        Some(found) => Ok(Some(found)),
        None => reply(alloc, value),
    }
}

fn one_move(alloc: Global, value: &Value) -> Result<Option<Move>, AllocError>
    ensures { IfOk result (λ o. meant.move_in (view value.now) ≡ option_map move_of o) }
{
    if let Some(found) = call(alloc, value)? {
        return Ok(Some(found));
    }
    if let Some(found) = set_global(alloc, value)? {
        return Ok(Some(found));
    }
    match remove_global(alloc, value)? {
        Some(found) => Ok(Some(found)),
        None => import_or_reply(alloc, value),
    }
}

fn all_moves(alloc: Global, values: &[Value]) -> Result<Option<Moves>, AllocError>
    ensures { IfOk result (λ o. meant.all_in meant.move_in (items_view values.now) ≡ option_map (λ m. moves_of m.all.items) o) }
{
    let mut all = Vec::new(alloc);
    for value in values {
        match one_move(alloc, value)? {
            Some(found) => all.push(found)?,
            None => return Ok(None),
        }
    }
    Ok(Some(Moves { all }))
}

pub(crate) fn moves_at(alloc: Global, value: &Value) -> Result<Option<Moves>, AllocError>
    ensures { IfOk result (λ o. meant.member_in (codes "moves") meant.moves_in (view value.now) ≡ option_map (λ m. moves_of m.all.items) o) }
{
    match value.get("moves") {
        Some(Value::Array(values)) => all_moves(alloc, values.as_slice()),
        _ => Ok(None),
    }
}
