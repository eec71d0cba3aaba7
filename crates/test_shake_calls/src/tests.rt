// Programs at the limit of levels.
use js_syntax::UnaryOperator;
use js_tree::{Ident, Node, NodeKind, Program, SPAN, SourceType, depth};
use json_write::write_tree;
use min_driver::{CompressOptions, Minifier, MinifierOptions, MinifyError};
use std::alloc::{AllocError, Global};
use std::test::Fail;

// A node above one other.
fn above(alloc: Global, kind: NodeKind, child: Node) -> Result<Node, AllocError> {
    let mut children = Vec::new(alloc);
    children.push(Some(child))?;
    Ok(Node::new(kind, SPAN, children))
}

// The tree of `f()`, of two levels.
fn call(alloc: Global) -> Result<Node, AllocError> {
    let name = Ident::new(String::from_str(alloc, "f")?);
    let mut children = Vec::new(alloc);
    children.push(Some(Node::new(NodeKind::ReferenceName(name), SPAN, Vec::new(alloc))))?;
    children.push(Some(Node::new(NodeKind::Arguments, SPAN, Vec::new(alloc))))?;
    Ok(Node::new(
        NodeKind::CallExpression {
            optional: false,
            pure: false,
        },
        SPAN,
        children,
    ))
}

// That call behind this many operators `!`.
fn negated(alloc: Global, operators: usize) -> Result<Node, AllocError> {
    let mut node = call(alloc)?;
    for _ in 0..operators {
        node = above(
            alloc,
            NodeKind::UnaryExpression(UnaryOperator::LogicalNot),
            node,
        )?;
    }
    Ok(node)
}

// That in a module, of four levels more than there are operators.
fn module(alloc: Global, operators: usize) -> Result<Program, AllocError> {
    let node = negated(alloc, operators)?;
    let statement = above(alloc, NodeKind::ExpressionStatement, node)?;
    let list = above(alloc, NodeKind::Statements, statement)?;
    let root = above(alloc, NodeKind::Program(SourceType::Module), list)?;
    Ok(Program::new(root))
}

fn shaken(alloc: Global, program: &mut Program) -> Result<u64, MinifyError> {
    let options = MinifierOptions {
        compress: Some(CompressOptions::dce(alloc)),
    };
    let done = Minifier::new(options).dce(alloc, program)?;
    Ok(done.iterations)
}

// How many passes changed something, or an error; how many levels are left; and how long their text is.
type Answer = (Result<u64, MinifyError>, usize, usize);

fn answer(alloc: Global, program: &mut Program) -> Result<Answer, AllocError> {
    let passes = shaken(alloc, program);
    let levels = depth(program, 2000);
    let text = write_tree(alloc, program)?;
    Ok((passes, levels, text.as_str().len()))
}

fn answer_behind(alloc: Global, operators: usize) -> Result<Answer, AllocError> {
    let mut program = module(alloc, operators)?;
    answer(alloc, &mut program)
}

// Each operator has 67 bytes, and all that stands around them has 193: that is left.
#[test]
fn a_thousand_levels_are_shaken(rt: HostRuntime) -> Result<(), Fail> {
    let got = answer_behind(rt.alloc(), 996)?;
    assert_eq!(rt; got, (Ok(1), 4, 193));
    Ok(())
}

#[test]
fn one_level_more_is_refused(rt: HostRuntime) -> Result<(), Fail> {
    let refused = MinifyError::TooLarge {
        nodes: 1001,
        levels: 1001,
    };
    let got = answer_behind(rt.alloc(), 997)?;
    assert_eq!(rt; got, (Err(refused), 1001, 66_992));
    Ok(())
}
