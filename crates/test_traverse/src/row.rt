// A row: a program, and what is left of it.
ghost use Rattle.std.specs.Prelude.{OnOk};
ghost use Rattle.js_syntax.specs.Class.{root};
ghost use Rattle.js_syntax.specs.Node.{forest_of};
ghost use Rattle.json_shape.specs.Shape.{Fits};

use crate::clean::clean_bodies;
use js_tree::{Program, count_nodes};
use json_read::read_tree;
use json_write::write_tree;
use std::alloc::{AllocError, Global};

// No row has more nodes.
const MOST: u32 = 100_000;

// Prints a program and whether another walk is asked for.
fn append_program(
    alloc: Global,
    program: &Program,
    again: bool,
    printed: &mut String,
) -> Result<(), AllocError> {
    let text = write_tree(alloc, program)?;
    printed.push_str(text.as_str())?;
    printed.push_str(if again { "\nagain\n" } else { "\n" })
}

// Walks once, and prints what is left.
fn append_walk(
    alloc: Global,
    program: &mut Program,
    printed: &mut String,
) -> Result<bool, AllocError>
    requires fits { Fits root (forest_of program.old) }
    ensures fits { OnOk result (Fits root (forest_of program.new)) }
{
    if count_nodes(program, MOST) > MOST as usize {
        return Ok(false);
    }
    let again = clean_bodies(alloc, program)?;
    append_program(alloc, program, again, printed)?;
    Ok(again)
}

// Walks once, and again where that is asked for.
fn append_walks(alloc: Global, program: Program, printed: &mut String) -> Result<(), AllocError>
    requires fits { Fits root (forest_of program) }
{
    let mut program = program;
    if append_walk(alloc, &mut program, printed)? {
        append_walk(alloc, &mut program, printed)?;
    }
    Ok(())
}

/// What is left of a row's program by a walk, and by another where one is asked for.
pub(crate) fn append_left(
    alloc: Global,
    text: &str,
    printed: &mut String,
) -> Result<(), AllocError> {
    match read_tree(alloc, text.as_bytes()) {
        Ok(program) => append_walks(alloc, program, printed),
        Err(_) => printed.push_str("no program\n"),
    }
}
