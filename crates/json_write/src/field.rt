// Fields that are no nodes, each with its key.
ghost use Rattle.std.specs.Prelude.{◌≡◌, ◌∷◌, slice_get};
ghost use Rattle.std.specs.Option.{option_map};
ghost use Rattle.json.specs.Token.{key};
ghost use Rattle.serde_json.specs.Data.{null, boolean, string, object, no_members};
ghost use Rattle.js_syntax.specs.Hint as hint;
ghost use Rattle.js_syntax.specs.Facts.{scalars_of};
ghost use Rattle.json_text.specs.Text.{identifier};
ghost use Rattle.json_entries.specs.Entry.{entry, mark_at, scalar_at, scalar_of};
ghost use Rattle.json_entries.specs.Members.{is_marked, scalar_of_place};
ghost use Rattle.json_write.specs.Tokens.{data_tokens, Appends, is_node_key, entry_tokens, content_in};

use crate::name::write_identifier;
use crate::scalar::{write_flag, write_null, write_scalar, write_string};
use js_syntax::Key;
use js_tree::Node;
use json::Writer;
use json_entries::{Scalar, scalars};
use std::alloc::AllocError;

/// The field of a node at a place among those that are no nodes.
pub(crate) fn own_scalar(node: &Node, at: u8) -> Option<Scalar<'_>>
    ensures { option_map scalar_of result ≡ slice_get (scalars_of node.now.kind) at }
{
    scalars(node.kind()).get(at)
}

fn is_below(key: &Key) -> bool
    ensures { result ≡ hint.is_below key.now }
{
    matches!(key, Key::Below)
}

/// Whether a scalar says that the key is a node.
pub(crate) fn is_node_key<'a>(scalar: Scalar<'a>) -> bool
    ensures { result ≡ is_node_key (scalar_of scalar.entry) }
{
    match scalar {
        Scalar::Key(key) => is_below(key),
        Scalar::Property(key) => is_below(key),
        _ => true,
    }
}

fn is_marked<'a>(scalar: Scalar<'a>) -> bool
    ensures { result ≡ is_marked (scalar_of scalar.entry) }
{
    match scalar {
        Scalar::Mark(mark) => mark,
        _ => true,
    }
}

fn has_mark(node: &Node, at: u8) -> bool
    ensures { result ≡ is_marked (scalar_of_place at (scalars_of node.now.kind)) }
{
    match own_scalar(node, at) {
        Some(scalar) => is_marked(scalar),
        None => true,
    }
}

/// A mark, which is written where it is true alone.
pub(crate) fn write_mark_field(
    out: &mut Writer,
    node: &Node,
    name: &str,
    at: u8,
) -> Result<(), AllocError>
    ensures { Appends result out.old out.new (entry_tokens node.now (entry name.now (mark_at at))) }
{
    if has_mark(node, at) {
        write_flag_field(out, name, true)
    } else {
        Ok(())
    }
}

fn write_place(out: &mut Writer, node: &Node, at: u8) -> Result<(), AllocError>
    ensures { Appends result out.old out.new (data_tokens (content_in node.now (scalar_at at))) }
{
    match own_scalar(node, at) {
        Some(scalar) => write_scalar(out, scalar),
        None => write_null(out),
    }
}

pub(crate) fn write_scalar_field(
    out: &mut Writer,
    node: &Node,
    name: &str,
    at: u8,
) -> Result<(), AllocError>
    ensures { Appends result out.old out.new (key name.now ∷ data_tokens (content_in node.now (scalar_at at))) }
{
    out.key(name)?;
    write_place(out, node, at)?;
    Ok(())
}

pub(crate) fn write_flag_field(out: &mut Writer, name: &str, flag: bool) -> Result<(), AllocError>
    ensures { Appends result out.old out.new (key name.now ∷ data_tokens (boolean flag)) }
{
    out.key(name)?;
    write_flag(out, flag)?;
    Ok(())
}

pub(crate) fn write_null_field(out: &mut Writer, name: &str) -> Result<(), AllocError>
    ensures { Appends result out.old out.new (key name.now ∷ data_tokens null) }
{
    out.key(name)?;
    write_null(out)?;
    Ok(())
}

pub(crate) fn write_word_field(out: &mut Writer, name: &str, word: &str) -> Result<(), AllocError>
    ensures { Appends result out.old out.new (key name.now ∷ data_tokens (string word.now)) }
{
    out.key(name)?;
    write_string(out, word)?;
    Ok(())
}

pub(crate) fn write_name_field(out: &mut Writer, name: &str, word: &str) -> Result<(), AllocError>
    ensures { Appends result out.old out.new (key name.now ∷ data_tokens (identifier word.now)) }
{
    out.key(name)?;
    write_identifier(out, word)?;
    Ok(())
}

pub(crate) fn write_empty_field(out: &mut Writer, name: &str) -> Result<(), AllocError>
    ensures { Appends result out.old out.new (key name.now ∷ data_tokens (object no_members)) }
{
    out.key(name)?;
    write_empty(out)?;
    Ok(())
}

fn write_empty(out: &mut Writer) -> Result<(), AllocError>
    ensures { Appends result out.old out.new (data_tokens (object no_members)) }
{
    out.begin_object()?;
    out.end_object()?;
    Ok(())
}
