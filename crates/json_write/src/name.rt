// Names and literals that are no nodes.
ghost use Rattle.std.specs.Prelude.{[], ◌∷◌};
ghost use Rattle.json.specs.Token.{key, string};
ghost use Rattle.json_text.specs.Text.{identifier, text_literal, whole_number, minus, name_data, module_name_data};
ghost use Rattle.json_write.specs.Tokens.{data_tokens, Appends};

use form_names::is_identifier_name;
use js_syntax::ModuleName;
use json::Writer;
use std::alloc::AllocError;

// A field that holds a text.
fn write_word(out: &mut Writer, name: &str, word: &str) -> Result<(), AllocError>
    ensures { Appends result out.old out.new (key name.now ∷ string word.now ∷ []) }
{
    out.key(name)?;
    out.string(word)?;
    Ok(())
}

pub(crate) fn write_identifier(out: &mut Writer, name: &str) -> Result<(), AllocError>
    ensures { Appends result out.old out.new (data_tokens (identifier name.now)) }
{
    out.begin_object()?;
    write_word(out, "name", name)?;
    write_word(out, "type", "Identifier")?;
    out.end_object()?;
    Ok(())
}

pub(crate) fn write_text_literal(out: &mut Writer, text: &str) -> Result<(), AllocError>
    ensures { Appends result out.old out.new (data_tokens (text_literal text.now)) }
{
    out.begin_object()?;
    write_word(out, "type", "Literal")?;
    write_word(out, "value", text)?;
    out.end_object()?;
    Ok(())
}

pub(crate) fn write_whole_number(out: &mut Writer, number: u64) -> Result<(), AllocError>
    ensures { Appends result out.old out.new (data_tokens (whole_number number)) }
{
    out.begin_object()?;
    write_word(out, "type", "Literal")?;
    out.key("value")?;
    out.u64(number)?;
    out.end_object()?;
    Ok(())
}

/// A negative number, as unary minus on its magnitude: JSON's literals aren't negative in ESTree.
pub(crate) fn write_minus(out: &mut Writer, magnitude: u64) -> Result<(), AllocError>
    ensures { Appends result out.old out.new (data_tokens (minus magnitude)) }
{
    out.begin_object()?;
    out.key("argument")?;
    write_whole_number(out, magnitude)?;
    write_word(out, "operator", "-")?;
    out.key("prefix")?;
    out.boolean(true)?;
    write_word(out, "type", "UnaryExpression")?;
    out.end_object()?;
    Ok(())
}

/// A name that may be a text as well.
pub(crate) fn write_name(out: &mut Writer, name: &str) -> Result<(), AllocError>
    ensures { Appends result out.old out.new (data_tokens (name_data name.now)) }
{
    if is_identifier_name(name) {
        write_identifier(out, name)
    } else {
        write_text_literal(out, name)
    }
}

pub(crate) fn write_module_name(out: &mut Writer, name: &ModuleName) -> Result<(), AllocError>
    ensures { Appends result out.old out.new (data_tokens (module_name_data name.now)) }
{
    match name {
        ModuleName::Name(name) => write_name(out, name.as_str()),
        ModuleName::Text(text) => write_text_literal(out, text.as_str()),
    }
}
