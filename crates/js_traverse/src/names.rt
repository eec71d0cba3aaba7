// The name of a node that is a name.
ghost use Rattle.std.specs.Prelude.{◌≡◌, option_map};
ghost use Rattle.js_traverse.specs.Names.{declared_name, used_name};

use js_syntax::{Ident, NodeKind};

// That it declares.
pub(crate) fn declared_name(kind: &NodeKind) -> Option<&Ident>
    ensures { option_map (λ n. n.now) result ≡ declared_name kind.now }
{
    match kind {
        NodeKind::BindingName(name) => Some(name),
        _ => None,
    }
}

// That it refers by, to use it or as the target of an assignment or an update.
pub(crate) fn used_name(kind: &NodeKind) -> Option<&Ident>
    ensures { option_map (λ n. n.now) result ≡ used_name kind.now }
{
    match kind {
        NodeKind::ReferenceName(name) => Some(name),
        NodeKind::TargetName(name) => Some(name),
        _ => None,
    }
}
