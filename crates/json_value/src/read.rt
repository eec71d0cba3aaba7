// From a text to its value, in one pass over the tokens.
ghost use Rattle.std.specs.Prelude.{◌≡◌, ◌<◌, length, Some, None, Err, IfOk, OnOk, IsUtf8};
ghost use Rattle.json.specs.Json.{value, items, members};
ghost use Rattle.serde_json.specs.Data.{no_members};
ghost use Rattle.serde_json.specs.Read.{of_json, of_items, of_members, converted, read as read_text};
ghost use Rattle.json_value.specs.View.{view, items_view, members_view};
ghost use Rattle.json_value.specs.declared.error.ValueError.TheVariants.{Syntax};

use crate::error::ValueError;
use crate::number::number;
use crate::value::Value;
use json::{Reader, Scratch, Token};
use std::alloc::Global;

// How many arrays and objects may nest.
const MAX_DEPTH: usize = 127;

/// The value that bytes hold, as `serde_json` reads it.
pub fn read_value<'a>(
    alloc: Global,
    bytes: &'a [u8],
    scratch: &'a mut Scratch,
) -> Result<Value<'a>, ValueError>
    ensures ok { IfOk result (λ v. IsUtf8 bytes.now × (read_text bytes.now ≡ Some (view v))) }
    ensures err { result ≡ Err Syntax → IsUtf8 bytes.now → read_text bytes.now ≡ None }
{
    match simdutf8::compat::from_utf8(bytes) {
        Ok(text) => read_all(alloc, text, scratch),
        Err(_) => Err(ValueError::Syntax),
    }
}

fn read_all<'a>(
    alloc: Global,
    text: &'a str,
    scratch: &'a mut Scratch,
) -> Result<Value<'a>, ValueError>
    ensures ok { IfOk result (λ v. read_text text.now ≡ Some (view v)) }
    ensures err { result ≡ Err Syntax → read_text text.now ≡ None }
{
    let mut reader = Reader::new(text, scratch)?;
    let value = read(alloc, &mut reader, MAX_DEPTH)?;
    if reader.next().is_some() {
        return Err(ValueError::Syntax);
    }
    Ok(value)
}

// The next value; arrays and objects may nest so deep.
#[cycle(read)]
fn read<'a>(alloc: Global, reader: &mut Reader<'a>, depth: usize) -> Result<Value<'a>, ValueError>
    ensures ok { IfOk result
        (λ v. converted of_json (value depth reader.old) ≡ Some (view v, reader.new)) }
    ensures shorter { OnOk result (length reader.new < length reader.old) }
    ensures err { result ≡ Err Syntax → converted of_json (value depth reader.old) ≡ None }
{
    let Some(token) = reader.next() else {
        return Err(ValueError::Syntax);
    };
    match token {
        Token::String(text) => Ok(Value::String(text)),
        Token::Number(text) => match number(text) {
            Some(number) => Ok(Value::Number(number)),
            None => Err(ValueError::Syntax),
        },
        Token::Bool(b) => Ok(Value::Bool(b)),
        Token::Null => Ok(Value::Null),
        Token::EndObject | Token::EndArray | Token::Key(_) | Token::Bad => Err(ValueError::Syntax),
        Token::BeginArray => {
            if depth == 0 {
                return Err(ValueError::Syntax);
            }
            Ok(Value::Array(read_items(alloc, reader, depth - 1)?))
        }
        Token::BeginObject => {
            if depth == 0 {
                return Err(ValueError::Syntax);
            }
            Ok(Value::Object(read_members(alloc, reader, depth - 1)?))
        }
    }
}

// The items of an array, up to its end.
#[cycle(read)]
fn read_items<'a>(
    alloc: Global,
    reader: &mut Reader<'a>,
    depth: usize,
) -> Result<Vec<Value<'a>>, ValueError>
    ensures ok { IfOk result
        (λ v. converted of_items (items (value depth) (length reader.old) reader.old)
        ≡ Some (items_view v.items, reader.new)) }
    ensures shorter { OnOk result (length reader.new < length reader.old) }
    ensures err { result ≡ Err Syntax
        → converted of_items (items (value depth) (length reader.old) reader.old) ≡ None }
{
    let mut found = Vec::new(alloc);
    'items: while !reader.take_end_array() {
        let item = read(alloc, reader, depth)?;
        found.push(item)?;
    }
    Ok(found)
}

// The members of an object, up to its end.
#[cycle(read)]
fn read_members<'a>(
    alloc: Global,
    reader: &mut Reader<'a>,
    depth: usize,
) -> Result<Vec<(&'a str, Value<'a>)>, ValueError>
    ensures ok { IfOk result
        (λ v. converted (λ ms. of_members ms no_members)
        (members (value depth) (length reader.old) reader.old)
        ≡ Some (members_view v.items, reader.new)) }
    ensures shorter { OnOk result (length reader.new < length reader.old) }
    ensures err { result ≡ Err Syntax
        → converted (λ ms. of_members ms no_members)
        (members (value depth) (length reader.old) reader.old) ≡ None }
{
    let mut found = Vec::new(alloc);
    'members: while let Some(key) = reader.next_key()? {
        let member = read(alloc, reader, depth)?;
        found.push((key, member))?;
    }
    Ok(found)
}
