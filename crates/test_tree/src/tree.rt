// The trees of rows: ESTree JSON, or `!` and a number of operators.
//
// JSON nests at most 127 arrays and objects. So `!997` stands for the module of one statement, `this` behind 997
// operators `!`, which has three levels more than these. And trees that are read fit the table of node types: `?below`
// stands for a module of the statement `1` with a name below the literal, `?missing` for one of a statement without its
// expression, and `?place` for one with a declared name in its place.
use js_syntax::{Ident, LiteralValue, UnaryOperator};
use js_tree::{Node, NodeKind, Program, SPAN, SourceType};
use json_read::{TreeError, read_tree};
use std::alloc::{AllocError, Global};

// A node above one other.
fn above(alloc: Global, kind: NodeKind, child: Node) -> Result<Node, AllocError> {
    let mut children = Vec::new(alloc);
    children.push(Some(child))?;
    Ok(Node::new(kind, SPAN, children))
}

fn negation(alloc: Global, operand: Node) -> Result<Node, AllocError> {
    above(
        alloc,
        NodeKind::UnaryExpression(UnaryOperator::LogicalNot),
        operand,
    )
}

// `this` behind this many operators `!`.
fn negations(alloc: Global, operators: usize) -> Result<Node, AllocError> {
    let mut node = Node::new(NodeKind::ThisExpression, SPAN, Vec::new(alloc));
    for _ in 0..operators {
        node = negation(alloc, node)?;
    }
    Ok(node)
}

// The module of this expression.
fn module_of(alloc: Global, expression: Node) -> Result<Program, AllocError> {
    let statement = above(alloc, NodeKind::ExpressionStatement, expression)?;
    let list = above(alloc, NodeKind::Statements, statement)?;
    let root = above(alloc, NodeKind::Program(SourceType::Module), list)?;
    Ok(Program::new(root))
}

fn negated(alloc: Global, operators: usize) -> Result<Program, AllocError> {
    let expression = negations(alloc, operators)?;
    module_of(alloc, expression)
}

fn name(alloc: Global) -> Result<Node, AllocError> {
    let name = Ident::new(String::from_str(alloc, "a")?);
    Ok(Node::new(NodeKind::BindingName(name), SPAN, Vec::new(alloc)))
}

fn with_name_below(alloc: Global) -> Result<Program, AllocError> {
    let name = name(alloc)?;
    let literal = above(alloc, NodeKind::Literal(LiteralValue::Number(1)), name)?;
    module_of(alloc, literal)
}

fn with_name_in_place(alloc: Global) -> Result<Program, AllocError> {
    let name = name(alloc)?;
    module_of(alloc, name)
}

fn without_expression(alloc: Global) -> Result<Program, AllocError> {
    let statement = Node::new(NodeKind::ExpressionStatement, SPAN, Vec::new(alloc));
    let list = above(alloc, NodeKind::Statements, statement)?;
    let root = above(alloc, NodeKind::Program(SourceType::Module), list)?;
    Ok(Program::new(root))
}

// One that does not fit the table.
fn misfit(alloc: Global, word: &str) -> Result<Program, AllocError> {
    match word {
        "below" => with_name_below(alloc),
        "missing" => without_expression(alloc),
        _ => with_name_in_place(alloc),
    }
}

/// The tree of a row.
pub(crate) fn tree_of(alloc: Global, text: &str) -> Result<Program, TreeError> {
    if let Some(number) = text.strip_prefix('!') {
        let operators = number.parse::<usize>().unwrap_or(0);
        return Ok(negated(alloc, operators)?);
    }
    match text.strip_prefix('?') {
        Some(word) => Ok(misfit(alloc, word)?),
        None => read_tree(alloc, text.as_bytes()),
    }
}

/// The node that lies so many levels below a program, lists included, each the first of its row; or the last of them
/// that is there.
pub(crate) fn first_below(program: &Program, levels: usize) -> &Node {
    let mut node = program.root();
    for _ in 0..levels {
        match node.children() {
            [Some(child), ..] => node = child,
            _ => return node,
        }
    }
    node
}
