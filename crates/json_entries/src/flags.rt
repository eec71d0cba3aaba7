// Flags that say what the rest of a node says already.
ghost use Rattle.std.specs.Prelude.{◌≡◌, [], ◌∷◌};
ghost use Rattle.js_syntax.specs.Node.{row, forest_of};
ghost use Rattle.js_syntax.specs.Hint as flags;
ghost use Rattle.json_table.specs.View.{hint_view};

use js_syntax::{FunctionKind, Key, NodeKind};
use js_tree::Node;
use json_table::Hint;

fn is_below(key: &Key) -> bool
    ensures { result ≡ flags.is_below key.now }
{
    matches!(key, Key::Below)
}

fn has_key_below(kind: &NodeKind) -> bool
    ensures { result ≡ flags.has_key_below kind.now }
{
    match kind {
        NodeKind::MethodDefinition { key, .. } => is_below(key),
        NodeKind::PropertyDefinition { key, .. } => is_below(key),
        NodeKind::Property { key, .. } => is_below(key),
        NodeKind::BindingProperty(key) => is_below(key),
        NodeKind::TargetProperty(key) => is_below(key),
        NodeKind::MemberExpression { key, .. } => is_below(key),
        _ => false,
    }
}

fn is_arrow(kind: &NodeKind) -> bool
    ensures { result ≡ flags.is_arrow kind.now }
{
    match kind {
        NodeKind::Function { kind, .. } => matches!(kind, FunctionKind::Arrow),
        _ => false,
    }
}

fn is_private(child: &Option<Node>) -> bool
    ensures { result ≡ flags.has flags.is_private (row (child.now ∷ [])) }
{
    match child {
        Some(node) => matches!(node.kind(), NodeKind::PrivateName(_)),
        None => false,
    }
}

fn is_function_body(child: &Option<Node>) -> bool
    ensures { result ≡ flags.has flags.is_function_body (row (child.now ∷ [])) }
{
    match child {
        Some(node) => matches!(node.kind(), NodeKind::FunctionBody),
        None => false,
    }
}

fn has_private(children: &[Option<Node>]) -> bool
    ensures { result ≡ flags.has flags.is_private (row children.now) }
{
    for child in children {
        if is_private(child) {
            return true;
        }
    }
    false
}

fn has_function_body(children: &[Option<Node>]) -> bool
    ensures { result ≡ flags.has flags.is_function_body (row children.now) }
{
    for child in children {
        if is_function_body(child) {
            return true;
        }
    }
    false
}

fn is_name(kind: &NodeKind, name: &str) -> bool
    ensures { result ≡ flags.is_name name.now kind.now }
{
    match kind {
        NodeKind::BindingName(other) => other.as_str() == name,
        NodeKind::ReferenceName(other) => other.as_str() == name,
        NodeKind::TargetName(other) => other.as_str() == name,
        _ => false,
    }
}

fn is_default(kind: &NodeKind) -> bool
    ensures { result ≡ flags.is_default kind.now }
{
    matches!(kind, NodeKind::BindingDefault | NodeKind::TargetDefault)
}

fn first_is_name(children: &[Option<Node>], name: &str) -> bool
    ensures { result ≡ flags.first_is (flags.is_name name.now) (row children.now) }
{
    match children.first() {
        Some(Some(node)) => is_name(node.kind(), name),
        _ => false,
    }
}

fn is_value_named(node: &Node, name: &str) -> bool
    ensures { result ≡ flags.has_value_named name.now (forest_of node.now) }
{
    is_name(node.kind(), name) || (is_default(node.kind()) && first_is_name(node.children(), name))
}

// The first node that is there: a key that is no node is absent.
fn has_value_named(children: &[Option<Node>], name: &str) -> bool
    ensures { result ≡ flags.has_value_named name.now (row children.now) }
{
    for child in children {
        if let Some(node) = child {
            return is_value_named(node, name);
        }
    }
    false
}

fn is_named_by(key: &Key, children: &[Option<Node>]) -> bool
    ensures { result ≡ flags.is_named_by key.now (row children.now) }
{
    match key {
        Key::Name(name) => has_value_named(children, name.as_str()),
        _ => false,
    }
}

fn is_short(node: &Node) -> bool
    ensures { result ≡ flags.is_short node.now.kind node.now.below }
{
    match node.kind() {
        NodeKind::Property { key, .. } => is_named_by(key, node.children()),
        NodeKind::BindingProperty(key) => is_named_by(key, node.children()),
        NodeKind::TargetProperty(key) => is_named_by(key, node.children()),
        _ => false,
    }
}

/// What a flag says of a node.
pub fn flag(node: &Node, hint: Hint) -> bool
    ensures { result ≡ flags.says (hint_view hint) node.now.kind node.now.below }
{
    match hint {
        Hint::IsComputed => has_key_below(node.kind()) && !has_private(node.children()),
        Hint::IsExpression => is_arrow(node.kind()) && !has_function_body(node.children()),
        Hint::IsShorthand => is_short(node),
    }
}
