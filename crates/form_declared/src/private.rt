// The private names that the members of a class declare (ECMA-262 15.7).
ghost use Rattle.std.specs.Prelude.{◌≡◌, ◌+◌, ◌^◌, ◌<◌, IfOk};
ghost use Rattle.std.specs.Option.{option_to_list};
ghost use Rattle.js_syntax.specs.Node.{row, forest_of};
ghost use Rattle.js_tree.specs.Count.{node_count};
ghost use Rattle.form_rules.specs.Context.{private_key_of};
ghost use Rattle.form_rules.specs.Rules.{half_of, privates_named, private_of, privates_among};

use crate::place::behind_node;
use form_rules::{Half, Private};
use js_syntax::{Key, MethodKind};
use js_tree::{Node, NodeKind};
use std::alloc::{AllocError, Global};

fn half_of(kind: MethodKind) -> Half
    ensures { result ≡ half_of kind }
{
    match kind {
        MethodKind::Get => Half::Getter,
        MethodKind::Set => Half::Setter,
        _ => Half::Whole,
    }
}

// The private name that is the key of a member, where its key stands first below it.
fn private_key<'a>(
    children: &'a [Option<Node>],
    place: u32,
    half: Half,
    is_static: bool,
) -> Option<Private<'a>>
    ensures { option_to_list result ≡ privates_named (private_key_of (row children.now)) place half is_static }
{
    match children {
        [Some(key), ..] => match key.kind() {
            NodeKind::PrivateName(name) => {
                Some(Private::new(name.as_str(), place, half, is_static))
            }
            _ => None,
        },
        _ => None,
    }
}

// The private name that a member at a place declares.
fn private_of<'a>(member: &'a Node, place: u32) -> Option<Private<'a>>
    requires fits { place + node_count (forest_of member.now) < 2 ^ 32 }
    ensures { option_to_list result ≡ private_of member.now.kind place member.now.below }
{
    match member.kind() {
        NodeKind::MethodDefinition {
            kind,
            is_static,
            key: Key::Below,
        } => private_key(member.children(), place + 1, half_of(*kind), *is_static),
        NodeKind::PropertyDefinition {
            is_static,
            key: Key::Below,
        } => private_key(member.children(), place + 1, Half::Whole, *is_static),
        _ => None,
    }
}

/// The private names that members declare, the first of which stands at `place`.
pub fn privates_among<'a>(
    alloc: Global,
    place: u32,
    members: &'a [Option<Node>],
) -> Result<Vec<Private<'a>>, AllocError>
    requires fits { place + node_count (row members.now) < 2 ^ 32 }
    ensures privates { IfOk result (λ v. v.items ≡ privates_among place (row members.now)) }
{
    let mut privates = Vec::new(alloc);
    let mut next = place;
    for member in members {
        if let Some(member) = member {
            if let Some(private) = private_of(member, next) {
                privates.push(private)?;
            }
            next = behind_node(next, member);
        }
    }
    Ok(privates)
}
