// Fields of objects: a key, and what stands behind it.
ghost use Rattle.std.specs.Prelude.{◌∷◌};
ghost use Rattle.json.specs.Token.{key};
ghost use Rattle.serde_json.specs.Data.{boolean, string};
ghost use Rattle.json_write.specs.Tokens.{data_tokens, Appends};
ghost use Rattle.run_text.specs.Text.{number_data};

use json::Writer;
use std::alloc::AllocError;

pub(crate) fn write_text_field(out: &mut Writer, name: &str, text: &str) -> Result<(), AllocError>
    ensures { Appends result out.old out.new (key name.now ∷ data_tokens (string text.now)) }
{
    out.key(name)?;
    out.string(text)?;
    Ok(())
}

pub(crate) fn write_flag_field(out: &mut Writer, name: &str, flag: bool) -> Result<(), AllocError>
    ensures { Appends result out.old out.new (key name.now ∷ data_tokens (boolean flag)) }
{
    out.key(name)?;
    out.boolean(flag)?;
    Ok(())
}

pub(crate) fn write_number_field(
    out: &mut Writer,
    name: &str,
    number: u64,
) -> Result<(), AllocError>
    ensures { Appends result out.old out.new (key name.now ∷ data_tokens (number_data number)) }
{
    out.key(name)?;
    out.u64(number)?;
    Ok(())
}
