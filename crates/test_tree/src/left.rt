// What is left without empty statements.
use crate::answer::shown;
use js_tree::Program;
use js_tree_copy::try_clone;
use min_pass::clear_program;
use std::alloc::{AllocError, Global};

fn clear(alloc: Global, program: &Program) -> Result<Program, AllocError> {
    let copy = try_clone(alloc, program)?;
    clear_program(alloc, copy)
}

/// What is left of a program without the empty statements of its lists.
pub(crate) fn cleared(alloc: Global, program: &Program) -> Result<String, AllocError> {
    let left = clear(alloc, program)?;
    shown(alloc, &left)
}
