// Names that are made of what an expression names.
ghost use Rattle.std.specs.Prelude.{◌≡◌, [], string_bytes, option_map, IfOk, OnOk};
ghost use Rattle.js_syntax.specs.Node.{row, forest_of};
ghost use Rattle.min_context.specs.Naming.{with_part, key_part, part_before, part_behind, gathered, or_ref, name_of};

use js_syntax::{Key, NodeKind};
use js_tree::Node;
use std::alloc::{AllocError, Global};

fn key_part(key: &Key) -> Option<&str>
    ensures { option_map (λ s. s.now) result ≡ key_part key.now }
{
    match key {
        Key::Name(name) => Some(name.as_str()),
        Key::Text(_) | Key::Number(_) | Key::Below => None,
    }
}

fn part_before(kind: &NodeKind) -> Option<&str>
    ensures { option_map (λ s. s.now) result ≡ part_before kind.now }
{
    match kind {
        NodeKind::BindingName(name)
        | NodeKind::ReferenceName(name)
        | NodeKind::TargetName(name)
        | NodeKind::PrivateName(name) => Some(name.as_str()),
        NodeKind::ThisExpression => Some("this"),
        NodeKind::Property { key, .. } => key_part(key),
        NodeKind::BindingProperty(key) | NodeKind::TargetProperty(key) => key_part(key),
        NodeKind::MethodDefinition { key, .. } => key_part(key),
        NodeKind::PropertyDefinition { key, .. } => key_part(key),
        _ => None,
    }
}

fn part_behind(kind: &NodeKind) -> Option<&str>
    ensures { option_map (λ s. s.now) result ≡ part_behind kind.now }
{
    match kind {
        NodeKind::MemberExpression { key, .. } => key_part(key),
        _ => None,
    }
}

fn add_part(text: &mut String, part: Option<&str>) -> Result<(), AllocError>
    ensures { OnOk result (string_bytes text.new ≡ with_part (string_bytes text.old) (option_map (λ s. s.now) part.entry)) }
{
    if let Some(part) = part {
        if !text.is_empty() {
            text.push_str("$")?;
        }
        text.push_str(part)?;
    }
    Ok(())
}

#[cycle(gather)]
fn gather_node(text: &mut String, node: &Node) -> Result<(), AllocError>
    ensures { OnOk result (string_bytes text.new ≡ gathered (string_bytes text.old) (forest_of node.now)) }
{
    add_part(text, part_before(node.kind()))?;
    gather_row(text, node.children())?;
    add_part(text, part_behind(node.kind()))
}

#[cycle(gather)]
fn gather_row(text: &mut String, children: &[Option<Node>]) -> Result<(), AllocError>
    ensures { OnOk result (string_bytes text.new ≡ gathered (string_bytes text.old) (row children.now)) }
{
    for child in children {
        if let Some(node) = child {
            gather_node(text, node)?;
        }
    }
    Ok(())
}

fn or_ref(text: String) -> Result<String, AllocError>
    ensures { IfOk result (λ name. string_bytes name ≡ or_ref (string_bytes text)) }
{
    let mut text = text;
    if text.is_empty() {
        text.push_str("ref")?;
    }
    Ok(text)
}

/// The names in an expression in order, joined by `$`: those of variables and of static keys, and `this`. Without one it
/// is `ref`. It fails only for want of memory.
pub(crate) fn name_of(alloc: Global, node: &Node) -> Result<String, AllocError>
    ensures name { IfOk result (λ name. string_bytes name ≡ name_of (forest_of node.now)) }
{
    let mut text = String::new(alloc);
    gather_node(&mut text, node)?;
    or_ref(text)
}
