// What a node adds to its tree by its kind.
ghost use Rattle.std.specs.Prelude.{◌≡◌, ◌≤◌};
ghost use Rattle.js_tree.specs.Count.{one_each, lower};

use js_syntax::NodeKind;

/// A node of this kind as it is counted.
pub(crate) fn own_count(kind: &NodeKind) -> usize
    ensures own { result ≡ one_each kind.now }
    ensures one { result ≤ 1 }
{
    match kind {
        NodeKind::Statements => 0,
        NodeKind::Cases => 0,
        NodeKind::Declarators => 0,
        NodeKind::Parameters => 0,
        NodeKind::Members => 0,
        NodeKind::Elements => 0,
        NodeKind::Properties => 0,
        NodeKind::Expressions => 0,
        NodeKind::Arguments => 0,
        NodeKind::Quasis => 0,
        NodeKind::Specifiers => 0,
        _ => 1,
    }
}

/// How much lower than the others the child at a place stands.
pub(crate) fn lower_by(kind: &NodeKind, at: usize) -> usize
    ensures lower { result ≡ lower kind.now at }
    ensures one { result ≤ 1 }
{
    match kind {
        NodeKind::Class(_) => { if at == 1 { 1 } else { 0 } }
        _ => 0,
    }
}
