// What is asked of a program's first expression, pattern and names.
use crate::answer::{either, shown};
use crate::tree::first_below;
use js_effects::{Surroundings, may_have_side_effects};
use js_tree::{
    Ident, LiteralValue, Node, NodeKind, Program, Text, as_direct_eval_call, bound_names,
};
use js_tree_copy::clone_node;
use std::alloc::{AllocError, Global};

// Of the list of statements the first one's expression, or that statement where it has none.
fn expression(program: &Program) -> &Node {
    first_below(program, 3)
}

// The pattern of the first declarator of a program's first statement.
fn pattern(program: &Program) -> &Node {
    first_below(program, 5)
}

pub(crate) fn evaluates(alloc: Global, program: &Program) -> Result<String, AllocError> {
    let name = as_direct_eval_call(expression(program));
    either(alloc, name.is_some(), "direct eval", "no direct eval")
}

fn push_name(node: &Node, said: &mut String) -> Result<(), AllocError> {
    match node.kind() {
        NodeKind::BindingName(name) => {
            let name = name.as_str();
            write!(said, " {name}")
        }
        _ => write!(said, " ?"),
    }
}

pub(crate) fn bound(alloc: Global, program: &Program) -> Result<String, AllocError> {
    let mut said = String::from_str(alloc, "names")?;
    for node in bound_names(alloc, pattern(program))? {
        push_name(node, &mut said)?;
    }
    Ok(said)
}

pub(crate) fn is_silent(alloc: Global, program: &Program) -> Result<String, AllocError> {
    let outside = Surroundings {
        in_with: false,
        in_class: false,
    };
    let has_effects = may_have_side_effects(expression(program), &[], outside);
    either(alloc, has_effects, "not silent", "silent")
}

fn copied_name(alloc: Global, name: &Ident) -> Result<String, AllocError> {
    let copy = name.try_clone(alloc)?;
    let name = copy.as_str();
    format!(in alloc; "name {name}")
}

fn copied_text(alloc: Global, text: &Text) -> Result<String, AllocError> {
    let copy = text.try_clone(alloc)?;
    let text = copy.as_str();
    format!(in alloc; "text {text}")
}

fn copied_root(alloc: Global, program: &Program) -> Result<String, AllocError> {
    let copy = Program::new(clone_node(alloc, program.root())?);
    shown(alloc, &copy)
}

/// What a copy holds of the name or the text that a program's first expression is, or else of the program's node.
pub(crate) fn cloned(alloc: Global, program: &Program) -> Result<String, AllocError> {
    match expression(program).kind() {
        NodeKind::ReferenceName(name) => copied_name(alloc, name),
        NodeKind::Literal(LiteralValue::Text(text)) => copied_text(alloc, text),
        _ => copied_root(alloc, program),
    }
}
