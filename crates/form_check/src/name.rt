// Names that may stand where they do (ECMA-262 13.1.1).
ghost use Rattle.std.specs.Prelude.{◌≡◌};
ghost use Rattle.form_rules.specs.Break.{least};
ghost use Rattle.form_rules.specs.Rules.{rule_5};

use crate::local::unless;
use form_context::Context;
use form_names::{is_identifier_name, may_be_bound, may_be_read};
use form_rules::Break;
use js_tree::{Node, NodeKind, SourceType};

/// Names are identifier names that aren't reserved, and what is bound or assigned in strict code isn't
/// `eval` or `arguments`.
pub(crate) fn rule_5(context: &Context<'_>, place: u32, node: &Node) -> Option<Break>
    ensures { result ≡ least (rule_5 context.now node.now.kind place node.now.below) }
{
    let is_module = matches!(context.source(), SourceType::Module);
    match node.kind() {
        NodeKind::BindingName(name) | NodeKind::TargetName(name) => unless(
            may_be_bound(context.strict(), is_module, name.as_str()),
            place,
            5,
        ),
        NodeKind::ReferenceName(name) => unless(
            may_be_read(context.strict(), is_module, name.as_str()),
            place,
            5,
        ),
        NodeKind::PrivateName(name) => unless(is_identifier_name(name.as_str()), place, 5),
        _ => None,
    }
}
