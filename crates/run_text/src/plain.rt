// Values that are no objects of the program's own.
ghost use Rattle.std.specs.Prelude.{◌≡◌};
ghost use Rattle.serde_json.specs.Data.{null, boolean, string};
ghost use Rattle.js_meaning.specs.Value.{undefined, host, other};
ghost use Rattle.js_meaning.specs.Value as meant;
ghost use Rattle.run_value.specs.Plain.{plain_of, kind_of};
ghost use Rattle.json_write.specs.Tokens.{data_tokens, Appends};
ghost use Rattle.run_text.specs.Text.{kind_word, plain_data};

use crate::field::{write_flag_field, write_number_field, write_text_field};
use json::Writer;
use run_value::{Plain, PrimitiveKind};
use std::alloc::AllocError;

fn kind_word(kind: PrimitiveKind) -> &'static str
    ensures { result.now ≡ kind_word (kind_of kind) }
{
    match kind {
        PrimitiveKind::Number => "number",
        PrimitiveKind::Bigint => "bigint",
        PrimitiveKind::Symbol => "symbol",
        PrimitiveKind::Text => "string",
    }
}

fn write_undefined(out: &mut Writer) -> Result<(), AllocError>
    ensures { Appends result out.old out.new (data_tokens (plain_data undefined)) }
{
    out.begin_object()?;
    write_flag_field(out, "undefined", true)?;
    out.end_object()?;
    Ok(())
}

fn write_null(out: &mut Writer) -> Result<(), AllocError>
    ensures { Appends result out.old out.new (data_tokens null) }
{
    out.null()?;
    Ok(())
}

fn write_flag(out: &mut Writer, flag: bool) -> Result<(), AllocError>
    ensures { Appends result out.old out.new (data_tokens (boolean flag)) }
{
    out.boolean(flag)?;
    Ok(())
}

fn write_integer(out: &mut Writer, number: i64) -> Result<(), AllocError>
    ensures { Appends result out.old out.new (data_tokens (plain_data (meant.number number))) }
{
    out.i64(number)?;
    Ok(())
}

pub(crate) fn write_text(out: &mut Writer, text: &str) -> Result<(), AllocError>
    ensures { Appends result out.old out.new (data_tokens (string text.now)) }
{
    out.string(text)?;
    Ok(())
}

fn write_host(out: &mut Writer, number: u64, callable: bool) -> Result<(), AllocError>
    ensures { Appends result out.old out.new (data_tokens (plain_data (host number callable))) }
{
    out.begin_object()?;
    write_flag_field(out, "callable", callable)?;
    write_number_field(out, "host", number)?;
    out.end_object()?;
    Ok(())
}

fn write_other(
    out: &mut Writer,
    number: u64,
    kind: PrimitiveKind,
    truth: bool,
) -> Result<(), AllocError>
    ensures { Appends result out.old out.new (data_tokens (plain_data (other number (kind_of kind) truth))) }
{
    out.begin_object()?;
    write_text_field(out, "kind", kind_word(kind))?;
    write_number_field(out, "other", number)?;
    write_flag_field(out, "true", truth)?;
    out.end_object()?;
    Ok(())
}

pub(crate) fn write_plain(out: &mut Writer, plain: &Plain) -> Result<(), AllocError>
    ensures { Appends result out.old out.new (data_tokens (plain_data (plain_of plain.now))) }
{
    match plain {
        Plain::Undefined => write_undefined(out),
        Plain::Null => write_null(out),
        Plain::Boolean(flag) => write_flag(out, *flag),
        Plain::Number(number) => write_integer(out, *number),
        Plain::Text(text) => write_text(out, text.as_str()),
        Plain::Host(number, callable) => write_host(out, *number, *callable),
        Plain::Other(number, kind, truth) => write_other(out, *number, *kind, *truth),
    }
}
