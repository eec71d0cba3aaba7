// The exports at a moment.
ghost use Rattle.std.specs.Prelude.{◌∷◌, codes, flat_map, map};
ghost use Rattle.json.specs.Token.{key};
ghost use Rattle.serde_json.specs.Data.{string, array};
ghost use Rattle.json_text.specs.Text.{items_of};
ghost use Rattle.js_meaning.specs.Trace.{exports_value, exports_uninitialised, exports_import};
ghost use Rattle.run_value.specs.ShownView.{shown_of};
ghost use Rattle.run_value.specs.Trace.{export_of, exports_of, texts_of};
ghost use Rattle.json_write.specs.Tokens.{data_tokens, Appends};
ghost use Rattle.run_text.specs.Text.{export_data, exports_data};

use crate::field::write_text_field;
use crate::plain::write_text;
use crate::shown::write_shown_field;
use json::Writer;
use run_value::{Shown, ShownExport, ShownExports};
use std::alloc::AllocError;

fn write_value(out: &mut Writer, name: &str, shown: &Shown) -> Result<(), AllocError>
    ensures { Appends result out.old out.new (data_tokens (export_data (exports_value name.now (shown_of shown.now)))) }
{
    out.begin_object()?;
    write_text_field(out, "name", name)?;
    write_shown_field(out, "value", shown)?;
    out.end_object()?;
    Ok(())
}

fn write_uninitialised(out: &mut Writer, name: &str) -> Result<(), AllocError>
    ensures { Appends result out.old out.new (data_tokens (export_data (exports_uninitialised name.now))) }
{
    out.begin_object()?;
    write_text_field(out, "name", name)?;
    out.end_object()?;
    Ok(())
}

fn write_import(
    out: &mut Writer,
    name: &str,
    source: &str,
    imported: &str,
) -> Result<(), AllocError>
    ensures { Appends result out.old out.new (data_tokens (export_data (exports_import name.now source.now imported.now))) }
{
    out.begin_object()?;
    write_text_field(out, "imported", imported)?;
    write_text_field(out, "name", name)?;
    write_text_field(out, "source", source)?;
    out.end_object()?;
    Ok(())
}

fn write_export(out: &mut Writer, export: &ShownExport) -> Result<(), AllocError>
    ensures { Appends result out.old out.new (data_tokens (export_data (export_of export.now))) }
{
    match export {
        ShownExport::Value { name, shown } => write_value(out, name.as_str(), shown),
        ShownExport::Uninitialised(name) => write_uninitialised(out, name.as_str()),
        ShownExport::Import {
            name,
            source,
            imported,
        } => write_import(out, name.as_str(), source.as_str(), imported.as_str()),
    }
}

fn write_each_export(out: &mut Writer, names: &[ShownExport]) -> Result<(), AllocError>
    ensures { Appends result out.old out.new (flat_map data_tokens (map export_data (map export_of names.now))) }
{
    for export in names {
        write_export(out, export)?;
    }
    Ok(())
}

fn write_each_source(out: &mut Writer, stars: &[String]) -> Result<(), AllocError>
    ensures { Appends result out.old out.new (flat_map data_tokens (map string (texts_of stars.now))) }
{
    for source in stars {
        write_text(out, source.as_str())?;
    }
    Ok(())
}

// The array of the names, with its key.
fn write_names(out: &mut Writer, names: &[ShownExport]) -> Result<(), AllocError>
    ensures { Appends result out.old out.new (key (codes "names") ∷ data_tokens (array (items_of (map export_data (map export_of names.now))))) }
{
    out.key("names")?;
    out.begin_array()?;
    write_each_export(out, names)?;
    out.end_array()?;
    Ok(())
}

// The array of the sources of `export *`, with its key.
fn write_stars(out: &mut Writer, stars: &[String]) -> Result<(), AllocError>
    ensures { Appends result out.old out.new (key (codes "stars") ∷ data_tokens (array (items_of (map string (texts_of stars.now))))) }
{
    out.key("stars")?;
    out.begin_array()?;
    write_each_source(out, stars)?;
    out.end_array()?;
    Ok(())
}

pub(crate) fn write_exports_field(
    out: &mut Writer,
    exports: &ShownExports,
) -> Result<(), AllocError>
    ensures { Appends result out.old out.new (key (codes "exports") ∷ data_tokens (exports_data (exports_of exports.now))) }
{
    out.key("exports")?;
    out.begin_object()?;
    write_names(out, exports.names.as_slice())?;
    write_stars(out, exports.stars.as_slice())?;
    out.end_object()?;
    Ok(())
}
