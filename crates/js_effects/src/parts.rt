// Which parts of a node are run.
ghost use Rattle.std.specs.Prelude.{◌≡◌};
ghost use Rattle.js_effects.specs.Effects as effects;

use js_syntax::NodeKind;

/// Which parts of a node are run.
#[derive(Clone, Copy)]
pub(crate) enum Parts {
    All,
    First,
    Second,
}

pub(crate) fn parts_run(kind: &NodeKind) -> Parts
    ensures { result ≡ effects.parts_run kind.now }
{
    match kind {
        NodeKind::PropertyDefinition { .. } => Parts::First,
        NodeKind::AssignmentExpression(_) => Parts::Second,
        _ => Parts::All,
    }
}
