// Whether the tables of edited sites match.
use crate::answer::MOST;
use crate::edit::{Edit, edited};
use crate::marks::mark_at;
use crate::table::append_match;
use js_scoping::build;
use js_tree::{Program, count_nodes};
use scope_context::Found;
use scope_table::table;
use scope_walk::find_sites;
use std::alloc::{AllocError, Global};

fn edits_of<'a>(alloc: Global, words: &'a str) -> Result<Vec<Edit<'a>>, AllocError> {
    let mut edits = Vec::new(alloc);
    for words in words.split(',') {
        if let Some(edit) = Edit::named(words) {
            edits.push(edit)?;
        }
    }
    Ok(edits)
}

fn path_of(alloc: Global, words: &str) -> Result<Vec<usize>, AllocError> {
    let mut path = Vec::new(alloc);
    for word in words.split('.') {
        if let Ok(at) = word.parse::<usize>() {
            path.push(at)?;
        }
    }
    Ok(path)
}

// Gives nodes the marks that they are edited to.
fn set_marks(alloc: Global, edits: &[Edit], program: &mut Program) -> Result<(), AllocError> {
    for edit in edits {
        if edit.is_of_mark() {
            let path = path_of(alloc, edit.place())?;
            mark_at(alloc, program, path.as_slice(), edit.number());
        }
    }
    Ok(())
}

fn edited_by_all<'a>(
    alloc: Global,
    found: Found<'a>,
    edits: &[Edit<'a>],
) -> Result<Found<'a>, AllocError> {
    let mut found = found;
    for edit in edits {
        found = edited(alloc, &found, edit)?;
    }
    Ok(found)
}

// Whether the table of these sites matches a program.
fn append_match_of(
    alloc: Global,
    found: &Found,
    program: &Program,
    printed: &mut String,
) -> Result<(), AllocError> {
    if found.bindings().len() > MOST as usize || found.references().len() > MOST as usize {
        return writeln!(printed, "too large");
    }
    let made = table(alloc, found)?;
    append_match(alloc, &made.scoping, program, printed)
}

fn append_match_with<'a>(
    alloc: Global,
    edits: &[Edit<'a>],
    program: &'a Program,
    printed: &mut String,
) -> Result<(), AllocError> {
    if count_nodes(program, MOST) > MOST as usize {
        return writeln!(printed, "too large");
    }
    let found = find_sites(alloc, program)?;
    let found = edited_by_all(alloc, found, edits)?;
    append_match_of(alloc, &found, program, printed)
}

/// Whether the table of a program's sites with these edits matches the program, which is marked before.
pub(crate) fn append_edited(
    alloc: Global,
    words: &str,
    program: &mut Program,
    printed: &mut String,
) -> Result<(), AllocError> {
    if count_nodes(program, MOST) > MOST as usize {
        return writeln!(printed, "too large");
    }
    build(alloc, program)?;
    let edits = edits_of(alloc, words)?;
    set_marks(alloc, edits.as_slice(), program)?;
    append_match_with(alloc, edits.as_slice(), program, printed)
}
