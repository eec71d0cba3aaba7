//! What do calls on expressions answer?
//!
//! A line of standard input is a row, or says behind `//` what the rows after it show, and is printed as it is. A row is a
//! question, a colon and the JSON of a tree, and is answered for each expression statement of its list, and of the blocks of that
//! list, in order. The questions:
//!
//! - `change`: whether the expression may refer to something else when it is evaluated again
//! - `target`: the same of the object of what an assignment assigns
//! - `pair`: what two checks make of the sides of a binary expression, of which the first takes texts and the second names
//! - `word`: the same of a check that takes texts and names, and one that takes texts
//! - `zero`: the text of the expression behind a zero, and of what it is where it is left if that doesn't matter
//! - `needed`: the names, texts and other parts of what is left of a call's arguments
//!
//! The rows, with what must be printed for them, are written by `tools/expression_rows.py` into `stdin` and `stdout`, which the
//! gate compares.
#![tactic(auto)]

mod answer;
mod question;
mod rebuilt;

use answer::append_answer;
use shake_streams::{StdSink, StdSource, read_all, write_all};
use std::alloc::{AllocError, Global};
use std::io;
use std::process::ExitCode;

fn append_line(alloc: Global, line: &str, printed: &mut String) -> Result<(), AllocError> {
    match line.split_once(':') {
        Some((question, tree)) if !line.starts_with("//") => {
            append_answer(alloc, question, tree, printed)
        }
        _ => writeln!(printed, "{line}"),
    }
}

// What is printed for all lines.
fn answers(alloc: Global, lines: &str) -> Result<String, AllocError> {
    let mut printed = String::new(alloc);
    for line in lines.lines() {
        append_line(alloc, line, &mut printed)?;
    }
    Ok(printed)
}

fn main(rt: HostRuntime) -> ExitCode {
    let mut source = StdSource::new(rt.reader());
    let Ok(bytes) = read_all(rt.alloc(), &mut source, 10_000_000) else {
        return ExitCode::from(2);
    };
    let Ok(lines) = str::from_utf8(bytes.as_slice()) else {
        return ExitCode::from(4);
    };
    let Ok(printed) = answers(rt.alloc(), lines) else {
        return ExitCode::from(9);
    };
    let mut out = StdSink::new(io::writer(&rt));
    match write_all(&mut out, printed.as_bytes()) {
        Ok(()) => ExitCode::from(0),
        Err(_) => ExitCode::from(8),
    }
}
