// Trees that no text gives: what a node needs isn't there, or it stands where it can't.
use js_syntax::{AssignmentOperator, Ident, LiteralValue, NodeKind, SPAN, SourceType};
use js_tree::{Node, Program};
use std::alloc::{AllocError, Global};

fn bare(alloc: Global, kind: NodeKind) -> Node {
    Node::new(kind, SPAN, Vec::new(alloc))
}

fn over(alloc: Global, kind: NodeKind, child: Node) -> Result<Node, AllocError> {
    let mut children = Vec::new(alloc);
    children.push(Some(child))?;
    Ok(Node::new(kind, SPAN, children))
}

fn over_two(alloc: Global, kind: NodeKind, first: Node, second: Node) -> Result<Node, AllocError> {
    let mut children = Vec::new(alloc);
    children.push(Some(first))?;
    children.push(Some(second))?;
    Ok(Node::new(kind, SPAN, children))
}

fn name(alloc: Global, name: &str) -> Result<Ident, AllocError> {
    let name = String::from_str(alloc, name)?;
    Ok(Ident::new(name))
}

// A call of the global f, with this for its arguments.
fn call_with(alloc: Global, arguments: NodeKind) -> Result<Node, AllocError> {
    let callee = name(alloc, "f")?;
    let callee = bare(alloc, NodeKind::ReferenceName(callee));
    let kind = NodeKind::CallExpression {
        optional: false,
        pure: false,
    };
    over_two(alloc, kind, callee, bare(alloc, arguments))
}

// `(o) = 3`, where the parentheses stand in the tree.
fn assignment(alloc: Global) -> Result<Node, AllocError> {
    let target = name(alloc, "o")?;
    let target = bare(alloc, NodeKind::TargetName(target));
    let target = over(alloc, NodeKind::ParenthesizedExpression, target)?;
    let value = bare(alloc, NodeKind::Literal(LiteralValue::Number(3)));
    let kind = NodeKind::AssignmentExpression(AssignmentOperator::Assign);
    over_two(alloc, kind, target, value)
}

// The expression that these words name, if they name one.
fn expression(alloc: Global, words: &str) -> Result<Option<Node>, AllocError> {
    match words {
        "new of nothing" => Ok(Some(bare(alloc, NodeKind::NewExpression(false)))),
        "a class body for arguments" => call_with(alloc, NodeKind::ClassBody).map(Some),
        "an assignment in parentheses" => assignment(alloc).map(Some),
        _ => Ok(None),
    }
}

// What these words put among the statements.
fn statement(alloc: Global, words: &str) -> Result<Option<Node>, AllocError> {
    match words {
        "a call among statements" => call_with(alloc, NodeKind::Arguments).map(Some),
        "throw of nothing" => Ok(Some(bare(alloc, NodeKind::ThrowStatement))),
        "do of nothing" => Ok(Some(bare(alloc, NodeKind::DoWhileStatement))),
        _ => match expression(alloc, words)? {
            Some(node) => over(alloc, NodeKind::ExpressionStatement, node).map(Some),
            None => Ok(None),
        },
    }
}

fn module(alloc: Global, statement: Node) -> Result<Program, AllocError> {
    let statements = over(alloc, NodeKind::Statements, statement)?;
    let root = over(alloc, NodeKind::Program(SourceType::Module), statements)?;
    Ok(Program::new(root))
}

/// The module that these words name, if they name one.
pub(crate) fn misplaced(alloc: Global, words: &str) -> Result<Option<Program>, AllocError> {
    match statement(alloc, words)? {
        Some(node) => module(alloc, node).map(Some),
        None => Ok(None),
    }
}
