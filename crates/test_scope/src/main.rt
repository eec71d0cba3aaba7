//! What is the table of a program, of which sites and marks is it made, and which tables match?
//!
//! A line of standard input is a row, or says behind `//` what the rows after it show, and is printed as it is. A row
//! is a question, a colon and the JSON of a tree. The questions:
//!
//! - `table`: the table that `build` makes, by all of its reading calls, then the marks of the nodes, and whether the
//!   table matches the program
//! - `bound`: the names of the first declarator's pattern, with their places and symbols, once `build` has marked the program
//! - `sites`: what `find_sites` finds in the program as it was read
//! - `marks 7 8`: the marks that `mark_nodes` gives the nodes, where the declared names have these symbols, and then the
//!   sites
//! - `edit EDIT, EDIT`: whether a table matches the program that is made of its sites with these edits (`edit.rt`)
//! - `outermost`, without a tree: what stands around a program
//!
//! The rows, with all that must be printed for them, are written by `tools/scope_examples.py` into `stdin` and
//! `stdout`, which the gate compares. Rows that are data cost no proof.
#![tactic(auto)]

mod answer;
mod bound;
mod edit;
mod fault;
mod marks;
mod sites;
mod table;

use crate::answer::{append_answer, append_outermost};
use shake_streams::{StdSink, StdSource, read_all, write_all};
use std::alloc::{AllocError, Global};
use std::io;
use std::process::ExitCode;

fn append_line(alloc: Global, line: &str, printed: &mut String) -> Result<(), AllocError> {
    if line.starts_with("//") {
        return writeln!(printed, "{line}");
    }
    match line.split_once(':') {
        Some((question, tree)) => append_answer(alloc, question, tree, printed),
        None => append_outermost(printed),
    }
}

// What is printed for all lines.
fn answers(alloc: Global, lines: &str) -> Result<String, AllocError> {
    let mut printed = String::new(alloc);
    for line in lines.split('\n') {
        if !line.is_empty() {
            append_line(alloc, line, &mut printed)?;
        }
    }
    Ok(printed)
}

fn main(rt: HostRuntime) -> ExitCode {
    let mut source = StdSource::new(rt.reader());
    let Ok(bytes) = read_all(rt.alloc(), &mut source, 10_000_000) else {
        return ExitCode::from(2);
    };
    let Ok(lines) = str::from_utf8(bytes.as_slice()) else {
        return ExitCode::from(4);
    };
    let Ok(printed) = answers(rt.alloc(), lines) else {
        return ExitCode::from(9);
    };
    let mut out = StdSink::new(io::writer(&rt));
    match write_all(&mut out, printed.as_bytes()) {
        Ok(()) => ExitCode::from(0),
        Err(_) => ExitCode::from(8),
    }
}
