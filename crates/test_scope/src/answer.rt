// The answer to a row.
use crate::bound::append_bound;
use crate::fault::append_edited;
use crate::marks::append_marked;
use crate::sites::{append_sites, name_of_part};
use crate::table::append_table;
use js_tree::Program;
use json_read::read_tree;
use scope_context::Context;
use std::alloc::{AllocError, Global};

/// No program of a row has more nodes.
pub(crate) const MOST: u32 = 1000;

pub(crate) fn append_number(number: Option<u32>, printed: &mut String) -> Result<(), AllocError> {
    match number {
        Some(number) => write!(printed, " {number}"),
        None => write!(printed, " -"),
    }
}

/// What stands around a program: where names are declared, and how many layers there are.
pub(crate) fn append_outermost(printed: &mut String) -> Result<(), AllocError> {
    let context = Context::outermost();
    let layer = context.declared_in();
    let (scope, part) = (layer.scope, name_of_part(layer.part));
    let layers = match context.layers()? {
        Some(layers) => layers.len(),
        None => 0,
    };
    writeln!(printed, "declares in {scope} {part}, layers {layers}")
}

fn append_with_words(
    alloc: Global,
    question: &str,
    program: &mut Program,
    printed: &mut String,
) -> Result<(), AllocError> {
    match question.split_once(' ') {
        Some(("marks", symbols)) => append_marked(alloc, symbols, program, printed),
        Some(("edit", edits)) => append_edited(alloc, edits, program, printed),
        _ => writeln!(printed, "no question"),
    }
}

fn append_about(
    alloc: Global,
    question: &str,
    program: &mut Program,
    printed: &mut String,
) -> Result<(), AllocError> {
    match question {
        "table" => append_table(alloc, program, printed),
        "sites" => append_sites(alloc, program, printed),
        "bound" => append_bound(alloc, program, printed),
        _ => append_with_words(alloc, question, program, printed),
    }
}

/// What is printed for a row with a tree. It owns the tree, so it makes one call more and no others.
pub(crate) fn append_answer(
    alloc: Global,
    question: &str,
    tree: &str,
    printed: &mut String,
) -> Result<(), AllocError> {
    match read_tree(alloc, tree.as_bytes()) {
        Ok(mut program) => append_about(alloc, question, &mut program, printed),
        Err(_) => writeln!(printed, "no tree"),
    }
}
