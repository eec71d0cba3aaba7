// Nodes.
ghost use Rattle.std.specs.Prelude.{◌≡◌, ◌∷◌, Some, flat_map};
ghost use Rattle.json.specs.Token.{key};
ghost use Rattle.serde_json.specs.Data.{array};
ghost use Rattle.json_text.specs.Text.{items_of, row_datas};
ghost use Rattle.json_entries.specs.Entry.{entry_view, node_at, key_at};
ghost use Rattle.json_entries.specs.Entries.{entries_of};
ghost use Rattle.json_entries.specs.Members.{node_of_place};
ghost use Rattle.json_write.specs.Tokens.{data_tokens, child_tokens, Appends, fields_in, entry_tokens, content_in};

use crate::field::{
    is_node_key, own_scalar, write_empty_field, write_flag_field, write_mark_field,
    write_name_field, write_null_field, write_scalar_field, write_word_field,
};
use crate::name::write_minus;
use crate::scalar::{write_null, write_scalar};
use js_tree::Node;
use json::Writer;
use json_entries::{Content, Entry, Form, entries, flag, form_of};
use std::alloc::AllocError;

#[cycle(write)]
pub(crate) fn write_node(out: &mut Writer, node: &Node) -> Result<(), AllocError>
    ensures { Appends result out.old out.new (child_tokens (Some node.now)) }
{
    match form_of(node.kind()) {
        Form::Null => write_null(out),
        Form::List => write_list(out, node),
        Form::Minus(magnitude) => write_minus(out, magnitude),
        Form::Object => write_object(out, node),
    }
}

#[cycle(write)]
fn write_list(out: &mut Writer, node: &Node) -> Result<(), AllocError>
    ensures { Appends result out.old out.new (data_tokens (array (items_of (row_datas node.now.below)))) }
{
    out.begin_array()?;
    write_items(out, node)?;
    out.end_array()?;
    Ok(())
}

#[cycle(write)]
fn write_items(out: &mut Writer, node: &Node) -> Result<(), AllocError>
    ensures { Appends result out.old out.new (flat_map data_tokens (row_datas node.now.below)) }
{
    for child in node.children() {
        write_child(out, child)?;
    }
    Ok(())
}

#[cycle(write)]
fn write_object(out: &mut Writer, node: &Node) -> Result<(), AllocError>
    ensures { Appends result out.old out.new (data_tokens (fields_in node.now)) }
{
    out.begin_object()?;
    write_entries(out, node)?;
    out.end_object()?;
    Ok(())
}

#[cycle(write)]
fn write_entries(out: &mut Writer, node: &Node) -> Result<(), AllocError>
    ensures { Appends result out.old out.new (flat_map (entry_tokens node.now) (entries_of node.now.kind)) }
{
    for entry in entries(node.kind()) {
        write_entry(out, node, *entry)?;
    }
    Ok(())
}

#[cycle(write)]
fn write_entry(out: &mut Writer, node: &Node, entry: Entry) -> Result<(), AllocError>
    ensures { Appends result out.old out.new (entry_tokens node.now (entry_view entry)) }
{
    let Entry(name, content) = entry;
    match content {
        Content::Child(at) => write_child_field(out, node, name, at),
        Content::Key(scalar, at) => write_key_field(out, node, name, scalar, at),
        Content::Type(node_type) => write_word_field(out, name, node_type.name()),
        Content::Scalar(at) => write_scalar_field(out, node, name, at),
        Content::Mark(at) => write_mark_field(out, node, name, at),
        Content::Flag(hint) => write_flag_field(out, name, flag(node, hint)),
        Content::No => write_flag_field(out, name, false),
        Content::Yes => write_flag_field(out, name, true),
        Content::Nothing => write_null_field(out, name),
        Content::Empty => write_empty_field(out, name),
        Content::Word(word) => write_word_field(out, name, word),
        Content::Name(word) => write_name_field(out, name, word),
    }
}

#[cycle(write)]
fn write_child_field(out: &mut Writer, node: &Node, name: &str, at: usize) -> Result<(), AllocError>
    ensures { Appends result out.old out.new (key name.now ∷ data_tokens (content_in node.now (node_at at))) }
{
    out.key(name)?;
    write_child_at(out, node, at)?;
    Ok(())
}

#[cycle(write)]
fn write_key_field(
    out: &mut Writer,
    node: &Node,
    name: &str,
    scalar: u8,
    at: usize,
) -> Result<(), AllocError>
    ensures { Appends result out.old out.new (key name.now ∷ data_tokens (content_in node.now (key_at scalar at))) }
{
    out.key(name)?;
    write_key(out, node, scalar, at)?;
    Ok(())
}

#[cycle(write)]
fn write_key(out: &mut Writer, node: &Node, scalar: u8, at: usize) -> Result<(), AllocError>
    ensures { Appends result out.old out.new (data_tokens (content_in node.now (key_at scalar at))) }
{
    match own_scalar(node, scalar) {
        None => write_child_at(out, node, at),
        Some(key) => {
            if is_node_key(key) {
                write_child_at(out, node, at)
            } else {
                write_scalar(out, key)
            }
        }
    }
}

#[cycle(write)]
fn write_child_at(out: &mut Writer, node: &Node, at: usize) -> Result<(), AllocError>
    ensures { Appends result out.old out.new (data_tokens (node_of_place at (row_datas node.now.below))) }
{
    match node.children().get(at) {
        Some(child) => write_child(out, child),
        None => write_null(out),
    }
}

#[cycle(write)]
fn write_child(out: &mut Writer, child: &Option<Node>) -> Result<(), AllocError>
    ensures { Appends result out.old out.new (child_tokens child.now) }
{
    match child {
        Some(node) => write_node(out, node),
        None => write_null(out),
    }
}
