// Values as the host sees them.
ghost use Rattle.std.specs.Prelude.{◌≡◌, ◌∷◌, flat_map, map, slice_get};
ghost use Rattle.json.specs.Token.{key};
ghost use Rattle.serde_json.specs.Data.{array};
ghost use Rattle.js_meaning.specs.Value.{again, first};
ghost use Rattle.run_value.specs.ShownView.{sort_of, shown_of, parts_of};
ghost use Rattle.run_value.specs.Trace.{all_of};
ghost use Rattle.json_write.specs.Tokens.{data_tokens, Appends};
ghost use Rattle.run_text.specs.Text.{sort_word, pair_data, shown_data, parts_items, all_data};
ghost use Rattle.run_text.specs.Parts.{parts_datas, part_data};

use crate::field::{write_number_field, write_text_field};
use crate::plain::write_plain;
use json::Writer;
use run_value::{Parts, Shown, Sort};
use std::alloc::AllocError;
use std::rc::Rc;

fn sort_word(sort: Sort) -> &'static str
    ensures { result.now ≡ sort_word (sort_of sort) }
{
    match sort {
        Sort::AFunction => "function",
        Sort::AnObject => "object",
        Sort::AnArray => "array",
        Sort::ATypeError => "TypeError",
        Sort::AReferenceError => "ReferenceError",
    }
}

fn write_again(out: &mut Writer, number: u64) -> Result<(), AllocError>
    ensures { Appends result out.old out.new (data_tokens (shown_data (again number))) }
{
    out.begin_object()?;
    write_number_field(out, "own", number)?;
    out.end_object()?;
    Ok(())
}

#[cycle(write)]
fn write_first(out: &mut Writer, number: u64, sort: Sort, parts: &Parts) -> Result<(), AllocError>
    ensures { Appends result out.old out.new (data_tokens (shown_data (first number (sort_of sort) parts.now))) }
{
    out.begin_object()?;
    out.key("content")?;
    write_parts(out, parts)?;
    write_text_field(out, "kind", sort_word(sort))?;
    write_number_field(out, "own", number)?;
    out.end_object()?;
    Ok(())
}

#[cycle(write)]
fn write_parts(out: &mut Writer, parts: &Parts) -> Result<(), AllocError>
    ensures { Appends result out.old out.new (data_tokens (array (parts_items parts.now))) }
{
    let (keys, values) = parts.parts();
    out.begin_array()?;
    write_each_part(out, keys, values)?;
    out.end_array()?;
    Ok(())
}

#[cycle(write)]
fn write_each_part(
    out: &mut Writer,
    keys: &[Rc<String>],
    values: &[Shown],
) -> Result<(), AllocError>
    ensures { Appends result out.old out.new (flat_map data_tokens (parts_datas (parts_of keys.now values.now))) }
{
    for (at, value) in values.iter().enumerate() {
        write_part(out, keys, at, value)?;
    }
    Ok(())
}

// A value, with its key if it has one.
#[cycle(write)]
fn write_part(
    out: &mut Writer,
    keys: &[Rc<String>],
    at: usize,
    value: &Shown,
) -> Result<(), AllocError>
    ensures { Appends result out.old out.new (data_tokens (part_data (slice_get keys.now at) (shown_of value.now))) }
{
    match keys.get(at) {
        Some(key) => write_pair(out, key.as_str(), value),
        None => write_shown(out, value),
    }
}

#[cycle(write)]
fn write_pair(out: &mut Writer, key: &str, value: &Shown) -> Result<(), AllocError>
    ensures { Appends result out.old out.new (data_tokens (pair_data key.now (shown_data (shown_of value.now)))) }
{
    out.begin_array()?;
    out.string(key)?;
    write_shown(out, value)?;
    out.end_array()?;
    Ok(())
}

#[cycle(write)]
pub(crate) fn write_shown(out: &mut Writer, shown: &Shown) -> Result<(), AllocError>
    ensures { Appends result out.old out.new (data_tokens (shown_data (shown_of shown.now))) }
{
    match shown {
        Shown::Plainly(plain) => write_plain(out, plain),
        Shown::Again(number) => write_again(out, *number as u64),
        Shown::First(number, sort, parts) => write_first(out, *number as u64, *sort, parts),
    }
}

pub(crate) fn write_shown_field(
    out: &mut Writer,
    name: &str,
    shown: &Shown,
) -> Result<(), AllocError>
    ensures { Appends result out.old out.new (key name.now ∷ data_tokens (shown_data (shown_of shown.now))) }
{
    out.key(name)?;
    write_shown(out, shown)?;
    Ok(())
}

fn write_each_shown(out: &mut Writer, values: &[Shown]) -> Result<(), AllocError>
    ensures { Appends result out.old out.new (flat_map data_tokens (map shown_data (all_of values.now))) }
{
    for value in values {
        write_shown(out, value)?;
    }
    Ok(())
}

pub(crate) fn write_all_field(
    out: &mut Writer,
    name: &str,
    values: &[Shown],
) -> Result<(), AllocError>
    ensures { Appends result out.old out.new (key name.now ∷ data_tokens (all_data (all_of values.now))) }
{
    out.key(name)?;
    out.begin_array()?;
    write_each_shown(out, values)?;
    out.end_array()?;
    Ok(())
}
