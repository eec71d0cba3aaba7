// The parts of an expression.
ghost use Rattle.std.specs.Prelude.{◌≡◌};
ghost use Rattle.js_syntax.specs.Node.{row};
ghost use Rattle.min_expressions.specs.Kept.{parts_of, told_parts};

use js_tree::Node;

/// Two nodes, or three, or other parts.
pub(crate) enum Parts<'a> {
    Pair(&'a Node, &'a Node),
    Triple(&'a Node, &'a Node, &'a Node),
    Others,
}

pub(crate) fn parts_of<'a>(children: &'a [Option<Node>]) -> Parts<'a>
    ensures { told_parts result ≡ parts_of (row children.now) }
{
    match children {
        [Some(first), Some(second)] => Parts::Pair(first, second),
        [Some(first), Some(second), Some(third)] => Parts::Triple(first, second, third),
        [] => Parts::Others,
        [None, ..] => Parts::Others,
        [Some(_)] => Parts::Others,
        [Some(_), None, ..] => Parts::Others,
        [Some(_), Some(_), None, ..] => Parts::Others,
        [Some(_), Some(_), Some(_), None, ..] => Parts::Others,
        [Some(_), Some(_), Some(_), Some(_), ..] => Parts::Others,
    }
}
