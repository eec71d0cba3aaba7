// What a `try` around nothing comes to. The recursion goes as deep as blocks, `if` and labels stand in one another.
ghost use Rattle.std.specs.Prelude.{◌≡◌};
ghost use Rattle.js_syntax.specs.Node.{row};
ghost use Rattle.steps.specs.Allowed.IdleTry.{has_no_loop_at, has_no_loop};
ghost use Rattle.min_statements.specs.Ifs.{is_block, are_blocks};

use js_syntax::NodeKind;
use js_tree::Node;

/// A block.
pub(crate) fn is_block(node: &Node) -> bool
    ensures { result ≡ is_block node.now.kind }
{
    matches!(node.kind(), NodeKind::BlockStatement)
}

/// Two blocks.
pub(crate) fn are_blocks(one: &Node, other: &Node) -> bool
    ensures { result ≡ are_blocks one.now other.now }
{
    is_block(one) && is_block(other)
}

// Whether labels around a statement reach no loop in it.
#[cycle(loops)]
fn has_no_loop_at(node: &Node) -> bool
    ensures { result ≡ has_no_loop_at node.now.kind (has_no_loop node.now.below) }
{
    match node.kind() {
        NodeKind::WhileStatement
        | NodeKind::DoWhileStatement
        | NodeKind::ForStatement
        | NodeKind::ForInStatement
        | NodeKind::ForOfStatement => false,
        NodeKind::Statements
        | NodeKind::BlockStatement
        | NodeKind::IfStatement
        | NodeKind::LabeledStatement(_) => has_no_loop(node.children()),
        _ => true,
    }
}

/// Whether labels around a row reach no loop in it.
#[cycle(loops)]
pub(crate) fn has_no_loop(children: &[Option<Node>]) -> bool
    ensures { result ≡ has_no_loop (row children.now) }
{
    let mut rest = children;
    while let [first, others @ ..] = rest {
        if let Some(node) = first {
            if !has_no_loop_at(node) {
                return false;
            }
        }
        rest = others;
    }
    true
}
