// What stands in a field that is no node.
ghost use Rattle.std.specs.Prelude.{◌≡◌};
ghost use Rattle.serde_json.specs.Data.{Data, null, boolean, string};
ghost use Rattle.js_syntax.specs.Scalar as tree;
ghost use Rattle.js_syntax.specs.declared.value.LiteralValue.TheVariants as literal;
ghost use Rattle.json_entries.specs.Entry.{scalar_of};
ghost use Rattle.json_text.specs.Text.{or_null, identifier, module_name_data, key_data, property_data, value_data, scalar_data};
ghost use Rattle.json_write.specs.Tokens.{data_tokens, Appends};

use crate::name::{
    write_identifier, write_module_name, write_name, write_text_literal, write_whole_number,
};
use js_syntax::{Ident, Key, LiteralValue, ModuleName, RegExpText, TemplateText, Text};
use json::Writer;
use json_entries::Scalar;
use std::alloc::AllocError;

pub(crate) fn write_null(out: &mut Writer) -> Result<(), AllocError>
    ensures { Appends result out.old out.new (data_tokens null) }
{
    out.null()?;
    Ok(())
}

pub(crate) fn write_flag(out: &mut Writer, flag: bool) -> Result<(), AllocError>
    ensures { Appends result out.old out.new (data_tokens (boolean flag)) }
{
    out.boolean(flag)?;
    Ok(())
}

pub(crate) fn write_string(out: &mut Writer, text: &str) -> Result<(), AllocError>
    ensures { Appends result out.old out.new (data_tokens (string text.now)) }
{
    out.string(text)?;
    Ok(())
}

// The sign of a number is written above it.
fn write_value(out: &mut Writer, value: &LiteralValue) -> Result<(), AllocError>
    ensures { Appends result out.old out.new (data_tokens (value_data value.now)) }
{
    match value {
        LiteralValue::Null => write_null(out),
        LiteralValue::Boolean(flag) => write_flag(out, *flag),
        LiteralValue::Number(number) => write_magnitude(out, *number),
        LiteralValue::Text(text) => write_string(out, text.as_str()),
    }
}

fn write_magnitude(out: &mut Writer, number: i64) -> Result<(), AllocError>
    ensures { Appends result out.old out.new (data_tokens (value_data (literal.Number number))) }
{
    out.u64(number.unsigned_abs())?;
    Ok(())
}

fn write_maybe_string(out: &mut Writer, text: &Option<Text>) -> Result<(), AllocError>
    ensures { Appends result out.old out.new (data_tokens (or_null string text.now)) }
{
    match text {
        Some(text) => write_string(out, text.as_str()),
        None => write_null(out),
    }
}

fn write_maybe_name(out: &mut Writer, name: &Option<Ident>) -> Result<(), AllocError>
    ensures { Appends result out.old out.new (data_tokens (or_null identifier name.now)) }
{
    match name {
        Some(name) => write_identifier(out, name.as_str()),
        None => write_null(out),
    }
}

fn write_maybe_module_name(out: &mut Writer, name: &Option<ModuleName>) -> Result<(), AllocError>
    ensures { Appends result out.old out.new (data_tokens (or_null module_name_data name.now)) }
{
    match name {
        Some(name) => write_module_name(out, name),
        None => write_null(out),
    }
}

// A key; null for one that is a node.
fn write_key(out: &mut Writer, key: &Key) -> Result<(), AllocError>
    ensures { Appends result out.old out.new (data_tokens (key_data key.now null)) }
{
    match key {
        Key::Name(name) => write_name(out, name.as_str()),
        Key::Text(text) => write_text_literal(out, text.as_str()),
        Key::Number(number) => write_whole_number(out, *number),
        Key::Below => write_null(out),
    }
}

// The key of a member, which is a name where it is written as one.
fn write_property(out: &mut Writer, key: &Key) -> Result<(), AllocError>
    ensures { Appends result out.old out.new (data_tokens (property_data key.now null)) }
{
    match key {
        Key::Name(name) => write_identifier(out, name.as_str()),
        key => write_key(out, key),
    }
}

fn write_template_text(out: &mut Writer, text: &TemplateText) -> Result<(), AllocError>
    ensures { Appends result out.old out.new (data_tokens (scalar_data (tree.the_template_text text.now))) }
{
    out.begin_object()?;
    out.key("cooked")?;
    write_maybe_string(out, &text.cooked)?;
    out.key("raw")?;
    write_string(out, text.raw.as_str())?;
    out.end_object()?;
    Ok(())
}

fn write_reg_exp_text(out: &mut Writer, text: &RegExpText) -> Result<(), AllocError>
    ensures { Appends result out.old out.new (data_tokens (scalar_data (tree.the_reg_exp_text text.now))) }
{
    out.begin_object()?;
    out.key("flags")?;
    write_string(out, text.flags.as_str())?;
    out.key("pattern")?;
    write_string(out, text.pattern.as_str())?;
    out.end_object()?;
    Ok(())
}

pub(crate) fn write_scalar<'a>(out: &mut Writer, scalar: Scalar<'a>) -> Result<(), AllocError>
    ensures { Appends result out.old out.new (data_tokens (scalar_data (scalar_of scalar.entry))) }
{
    match scalar {
        Scalar::Text(text) => write_string(out, text),
        Scalar::Flag(flag) => write_flag(out, flag),
        Scalar::Value(value) => write_value(out, value),
        Scalar::Mark(mark) => write_flag(out, mark),
        Scalar::Name(name) => write_identifier(out, name.as_str()),
        Scalar::NameOrNull(name) => write_maybe_name(out, name),
        Scalar::ModuleName(name) => write_module_name(out, name),
        Scalar::ModuleNameOrNull(name) => write_maybe_module_name(out, name),
        Scalar::Source(source) => write_text_literal(out, source.as_str()),
        Scalar::Key(key) => write_key(out, key),
        Scalar::Property(key) => write_property(out, key),
        Scalar::TemplateText(text) => write_template_text(out, text),
        Scalar::RegExpText(text) => write_reg_exp_text(out, text),
    }
}
