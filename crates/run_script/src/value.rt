// Numbers, texts and values that JSON holds.
ghost use Rattle.std.specs.Prelude.{◌≡◌, option_map, string_bytes, IfOk};
ghost use Rattle.serde_json.specs.Data as json;
ghost use Rattle.serde_json.specs.View.{view, number_view};
ghost use Rattle.run_value.specs.Plain.{plain_of};
ghost use Rattle.run_value.specs.ShownView.{given_of};
ghost use Rattle.run_script.specs.Script as meant;
ghost use Rattle.run_script.specs.Held.{pair_in};

use run_value::{Given, Plain};
use serde_json::{Number, Value};
use std::alloc::{AllocError, Global};
use std::rc::Rc;

// One more than the greatest whole number.
const LIMIT: i64 = 9_007_199_254_740_992;

// ---- objects and lists

// Whether it is an object of so many members.
pub(crate) fn has_members(value: &Value, count: usize) -> bool
    ensures { result ≡ meant.has_members count (view value.now) }
{
    match value {
        Value::Object(members) => members.len() == count,
        _ => false,
    }
}

// The items of a list of two.
pub(crate) fn two(value: &Value) -> Option<(&Value, &Value)>
    ensures { pair_in (view value.now) ≡ option_map (λ p. (view p.0.now, view p.1.now)) result }
{
    let Value::Array(values) = value else {
        return None;
    };
    if values.len() == 2 {
        Some((&values[0], &values[1]))
    } else {
        None
    }
}

// ---- numbers and texts

fn natural(value: &Value) -> Option<u64>
    ensures { meant.natural_in (view value.now) ≡ result }
{
    match value {
        Value::Number(number) => match number.as_u64() {
            Some(n) if n < LIMIT as u64 => Some(n),
            _ => None,
        },
        _ => None,
    }
}

pub(crate) fn natural_at(value: &Value, name: &str) -> Option<u64>
    ensures { meant.member_in name.now meant.natural_in (view value.now) ≡ result }
{
    match value.get(name) {
        Some(member) => natural(member),
        None => None,
    }
}

fn integer(number: &Number) -> Option<Plain>
    ensures { meant.plain_in (json.number (number_view number.now)) ≡ option_map plain_of result }
{
    match number.as_i64() {
        Some(n) if -LIMIT < n && n < LIMIT => Some(Plain::Number(n)),
        _ => None,
    }
}

pub(crate) fn text(value: &Value) -> Option<&str>
    ensures { meant.text_in (view value.now) ≡ option_map (λ s. s.now) result }
{
    match value {
        Value::String(text) => Some(text.as_str()),
        _ => None,
    }
}

// No script has a global of the name `undefined`.
pub(crate) fn global_name(value: &Value) -> Option<&str>
    ensures { meant.global_name_in (view value.now) ≡ option_map (λ s. s.now) result }
{
    match value {
        Value::String(text) if text.as_str() != "undefined" => Some(text.as_str()),
        _ => None,
    }
}

pub(crate) fn shared(alloc: Global, text: &str) -> Result<Rc<String>, AllocError>
    ensures { IfOk result (λ s. string_bytes s.value ≡ text.now) }
{
    let text = String::from_str(alloc, text)?;
    let text = Rc::new(alloc, text)?;
    Ok(text)
}

fn boolean(value: &Value) -> Option<bool>
    ensures { meant.boolean_in (view value.now) ≡ result }
{
    match value {
        Value::Bool(flag) => Some(*flag),
        _ => None,
    }
}

fn boolean_at(value: &Value, name: &str) -> Option<bool>
    ensures { meant.member_in name.now meant.boolean_in (view value.now) ≡ result }
{
    match value.get(name) {
        Some(member) => boolean(member),
        None => None,
    }
}

// ---- values

// `{"undefined":true}`
fn undefined(value: &Value) -> Option<Plain>
    ensures { meant.undefined_in (view value.now) ≡ option_map plain_of result }
{
    if !has_members(value, 1) {
        return None;
    }
    match value.get("undefined") {
        Some(Value::Bool(true)) => Some(Plain::Undefined),
        _ => None,
    }
}

// `{"callable":B,"host":K}`
fn host(value: &Value) -> Option<Plain>
    ensures { meant.host_in (view value.now) ≡ option_map plain_of result }
{
    if !has_members(value, 2) {
        return None;
    }
    let number = natural_at(value, "host")?;
    let callable = boolean_at(value, "callable")?;
    Some(Plain::Host(number, callable))
}

// `{"own":K}`
fn own(value: &Value) -> Option<Given>
    ensures { meant.own_in (view value.now) ≡ option_map given_of result }
{
    if !has_members(value, 1) {
        return None;
    }
    let number = natural_at(value, "own")?;
    Some(Given::Own(number as usize))
}

fn undefined_or_host(value: &Value) -> Option<Plain>
    ensures { meant.either_in (meant.undefined_in (view value.now)) (meant.host_in (view value.now)) ≡ option_map plain_of result }
{
    match undefined(value) {
        Some(plain) => Some(plain),
        None => host(value),
    }
}

// A primitive value, or an object of the host.
pub(crate) fn plain(alloc: Global, value: &Value) -> Result<Option<Plain>, AllocError>
    ensures { IfOk result (λ o. meant.plain_in (view value.now) ≡ option_map plain_of o) }
{
    match value {
        Value::Null => Ok(Some(Plain::Null)),
        Value::Bool(flag) => Ok(Some(Plain::Boolean(*flag))),
        Value::Number(number) => Ok(integer(number)),
        Value::String(text) => {
            let text = shared(alloc, text.as_str())?;
            Ok(Some(Plain::Text(text)))
        }
        Value::Array(_) => Ok(None),
        Value::Object(_) => Ok(undefined_or_host(value)),
    }
}

// The same, or an own object.
pub(crate) fn given(alloc: Global, value: &Value) -> Result<Option<Given>, AllocError>
    ensures { IfOk result (λ o. meant.given_in (view value.now) ≡ option_map given_of o) }
{
    match own(value) {
        Some(own) => Ok(Some(own)),
        None => match plain(alloc, value)? {
            Some(plain) => Ok(Some(Given::Plain(plain))),
            None => Ok(None),
        },
    }
}

pub(crate) fn given_at(
    alloc: Global,
    value: &Value,
    name: &str,
) -> Result<Option<Given>, AllocError>
    ensures { IfOk result (λ o. meant.member_in name.now meant.given_in (view value.now) ≡ option_map given_of o) }
{
    match value.get(name) {
        Some(member) => given(alloc, member),
        None => Ok(None),
    }
}
