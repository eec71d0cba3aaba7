// Private names (ECMA-262 15.7.1).
ghost use Rattle.std.specs.Prelude.{◌≡◌, ◌+◌, ◌^◌, ◌<◌, IfOk};
ghost use Rattle.js_syntax.specs.Node.{forest_of};
ghost use Rattle.js_tree.specs.Count.{node_count};
ghost use Rattle.form_rules.specs.Break.{least};
ghost use Rattle.form_rules.specs.Rules.{rule_4};

use crate::local::unless;
use form_context::Context;
use form_declared::privates_among;
use form_names::first_repeated_private;
use form_rules::Break;
use js_tree::{Node, NodeKind};
use std::alloc::{AllocError, Global};

/// A private name is declared by a class around it, and once by its class, but for a getter and a setter.
pub(crate) fn rule_4<'a>(
    alloc: Global,
    context: &Context<'a>,
    place: u32,
    node: &'a Node,
) -> Result<Option<Break>, AllocError>
    requires fits { place + node_count (forest_of node.now) < 2 ^ 32 }
    ensures { IfOk result (λ b. b ≡ least (rule_4 context.now node.now.kind place node.now.below)) }
{
    match node.kind() {
        NodeKind::PrivateName(name) => {
            Ok(unless(context.knows_private(name.as_str()), place, 4))
        }
        NodeKind::Members => {
            let privates = privates_among(alloc, place, node.children())?;
            first_repeated_private(alloc, privates.as_slice())
        }
        _ => Ok(None),
    }
}
