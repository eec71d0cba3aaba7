// Direct eval.
ghost use Rattle.std.specs.Prelude.{◌≡◌};
ghost use Rattle.std.specs.Option.{option_map};
ghost use Rattle.js_syntax.specs.Node.{row};
ghost use Rattle.js_tree.specs.Names.{eval_name, eval_of_call};

use crate::Node;
use js_syntax::NodeKind;

// The name `eval` that comes first, parentheses aside.
fn eval_name(children: &[Option<Node>]) -> Option<&Node>
    ensures { option_map (λ n. n.now) result ≡ eval_name (row children.now) }
{
    let Some(Some(node)) = children.first() else {
        return None;
    };
    match node.kind() {
        NodeKind::ParenthesizedExpression => eval_name(node.children()),
        NodeKind::ReferenceName(name) if name.as_str() == "eval" => Some(node),
        _ => None,
    }
}

/// The name of a direct eval: a call that isn't optional and whose callee, parentheses aside, is the
/// name `eval` (ECMA-262 13.3.6.1), whether a scope declares that name or not.
pub fn as_direct_eval_call(node: &Node) -> Option<&Node>
    ensures { option_map (λ n. n.now) result ≡ eval_of_call node.now.kind node.now.below }
{
    match node.kind() {
        NodeKind::CallExpression { optional, .. } if !*optional => eval_name(node.children()),
        _ => None,
    }
}
