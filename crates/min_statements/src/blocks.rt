// What holds nothing. The recursion goes as deep as the tree, and ends at the first statement that may act.
ghost use Rattle.std.specs.Prelude.{◌≡◌, ◌&&◌};
ghost use Rattle.js_syntax.specs.Node.{row};
ghost use Rattle.steps.specs.Allowed.EmptyBlock.{is_idle, idles};

use js_syntax::NodeKind;
use js_tree::Node;

// An empty statement, or a block or a label around nothing.
#[cycle(idles)]
pub(crate) fn is_idle(node: &Node) -> bool
    ensures { result ≡ (is_idle node.now.kind && idles node.now.below) }
{
    match node.kind() {
        NodeKind::EmptyStatement
        | NodeKind::Statements
        | NodeKind::BlockStatement
        | NodeKind::LabeledStatement(_) => idles(node.children()),
        _ => false,
    }
}

// Whether a row has nothing but empty statements, and blocks and labels around such.
#[cycle(idles)]
pub(crate) fn idles(children: &[Option<Node>]) -> bool
    ensures { result ≡ idles (row children.now) }
{
    let mut rest = children;
    while let [first, others @ ..] = rest {
        if let Some(node) = first {
            if !is_idle(node) {
                return false;
            }
        }
        rest = others;
    }
    true
}
