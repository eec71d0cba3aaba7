// What a copy holds.
ghost use Rattle.std.specs.Prelude.{ℕ, Bool};
ghost use Rattle.js_syntax.specs.Node.{Tree};

use crate::answer::{shown, size};
use js_tree::{Node, Program, SPAN, Visit, walk_program};
use js_tree_copy::try_clone;
use std::alloc::{AllocError, Global};

// The program, whose root has an id.
fn numbered(program: Program) -> Program {
    let mut root = program.into_root();
    root.set_id(Some(7));
    Program::new(root)
}

// The copy of a program whose root has an id.
fn copy_of(alloc: Global, program: &Program) -> Result<Program, AllocError> {
    let original = numbered(try_clone(alloc, program)?);
    try_clone(alloc, &original)
}

// The spans and ids of the nodes that were visited, in order of places, until memory was short.
#[derive(Drop)]
struct Notes {
    text: String,
    written: Result<(), AllocError>,
}

fn write_note(text: &mut String, node: &Node) -> Result<(), AllocError> {
    let span = node.span();
    if span != SPAN {
        write!(text, " {}-{}", span.start, span.end)?;
    }
    if let Some(id) = node.id() {
        write!(text, " #{id}")?;
    }
    Ok(())
}

impl Visit for Notes {
    ghost visits = { λ _ _ _ _. Unit {0} };

    fn visit(&mut self, node: &Node) -> bool {
        if self.written.is_ok() {
            self.written = write_note(&mut self.text, node);
        }
        true
    }
}

fn notes_of(alloc: Global, program: &Program) -> Result<String, AllocError> {
    let mut notes = Notes {
        text: String::new(alloc),
        written: Ok(()),
    };
    walk_program(&mut notes, program);
    let Notes { text, written } = notes;
    written?;
    Ok(text)
}

// What is said of a copy.
fn said_of(alloc: Global, copy: &Program) -> Result<String, AllocError> {
    let size = size(alloc, copy, 1000)?;
    let notes = notes_of(alloc, copy)?;
    let text = shown(alloc, copy)?;
    format!(in alloc; "{size}{notes}\n{text}")
}

/// What a copy of a program holds, once its root has an id.
pub(crate) fn copied(alloc: Global, program: &Program) -> Result<String, AllocError> {
    let copy = copy_of(alloc, program)?;
    said_of(alloc, &copy)
}
