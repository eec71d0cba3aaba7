// The answers.
use crate::copied::copied;
use crate::expression::{bound, cloned, evaluates, is_silent};
use crate::kept::kept;
use crate::left::cleared;
use crate::question::{Question, question_named};
use crate::tree::tree_of;
use crate::visited::visited;
use js_tree::{Program, count_nodes, depth};
use js_tree_equal::content_eq;
use json_fits::fits;
use json_write::write_tree;
use std::alloc::{AllocError, Global};

/// One of two texts.
pub(crate) fn either(
    alloc: Global,
    holds: bool,
    yes: &str,
    no: &str,
) -> Result<String, AllocError> {
    String::from_str(alloc, if holds { yes } else { no })
}

/// The text of a tree, or of a long text its length alone.
pub(crate) fn shown(alloc: Global, program: &Program) -> Result<String, AllocError> {
    let text = write_tree(alloc, program)?;
    let bytes = text.as_str().len();
    if bytes > 1000 {
        return format!(in alloc; "{bytes} bytes");
    }
    String::from_str(alloc, text.as_str())
}

/// How large a tree is, or one more than this limit where it is larger.
pub(crate) fn size(alloc: Global, program: &Program, limit: u32) -> Result<String, AllocError> {
    let nodes = count_nodes(program, limit);
    let levels = depth(program, limit);
    format!(in alloc; "nodes {nodes} levels {levels}")
}

fn equals(alloc: Global, program: &Program, other: &str) -> Result<String, AllocError> {
    match tree_of(alloc, other) {
        Ok(other) => either(alloc, content_eq(program, &other), "equal", "different"),
        Err(error) => format!(in alloc; "no tree: {error}"),
    }
}

// What is asked of programs as wholes.
fn answer_of(
    alloc: Global,
    question: Question,
    program: &Program,
    operand: &str,
) -> Result<String, AllocError> {
    match question {
        Question::Size => size(alloc, program, operand.parse::<u32>().unwrap_or(0)),
        Question::Copied => copied(alloc, program),
        Question::Cloned => cloned(alloc, program),
        Question::Equal => equals(alloc, program, operand),
        Question::Cleared => cleared(alloc, program),
        Question::DirectEval => evaluates(alloc, program),
        Question::BoundNames => bound(alloc, program),
        Question::KeptNames => kept(alloc, program),
        Question::Silent => is_silent(alloc, program),
        Question::Visited => visited(alloc, program),
        Question::Written => shown(alloc, program),
        Question::Fits => either(alloc, fits(program), "fits", "does not fit"),
    }
}

/// The answer to a question that is asked of a tree. It owns the tree, so it calls no more than this.
pub(crate) fn answer(
    alloc: Global,
    question: &str,
    tree: &str,
    operand: &str,
) -> Result<String, AllocError> {
    let Some(question) = question_named(question) else {
        return String::from_str(alloc, "no question");
    };
    match tree_of(alloc, tree) {
        Ok(program) => answer_of(alloc, question, &program, operand),
        Err(error) => format!(in alloc; "no tree: {error}"),
    }
}
