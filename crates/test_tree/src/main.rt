//! Answers what is asked of trees in the rows of standard input: how large they are, what a copy of them holds, whether
//! they are equal, what passes leave, what their names and expressions do, and which text they have.
//!
//! A line is a row, or says behind `//` what the row after it shows, and is printed as it is. A row is a question, the
//! tree that it is asked of and, where the question wants one, an operand, with tabs between them. `question` lists the
//! questions, and `tree` says which trees there are: JSON, and deeper ones than JSON may be. For each row the answer
//! is printed. The rows, with what must be printed for them, are written by `tools/tree_rows.py` into `stdin` and
//! `stdout`, which the gate compares. Rows that are data cost no proof.
#![tactic(auto)]

mod answer;
mod copied;
mod expression;
mod kept;
mod left;
mod question;
mod tree;
mod visited;

use answer::answer;
use shake_streams::{StdSink, StdSource, read_all, write_all};
use std::alloc::{AllocError, Global};
use std::io;
use std::process::ExitCode;

// The front of a text up to the first tab, and what stands behind that.
fn parts(text: &str) -> (&str, &str) {
    match text.split_once('\t') {
        Some(both) => both,
        None => (text, ""),
    }
}

// What is printed for a line.
fn printed_for(alloc: Global, line: &str) -> Result<String, AllocError> {
    if line.starts_with("//") {
        return String::from_str(alloc, line);
    }
    let (question, rest) = parts(line);
    let (tree, operand) = parts(rest);
    answer(alloc, question, tree, operand)
}

// What is printed for all lines.
fn answers(alloc: Global, lines: &str) -> Result<String, AllocError> {
    let mut printed = String::new(alloc);
    for line in lines.lines() {
        let text = printed_for(alloc, line)?;
        printed.push_str(text.as_str())?;
        printed.push_str("\n")?;
    }
    Ok(printed)
}

fn main(rt: HostRuntime) -> ExitCode {
    let mut source = StdSource::new(rt.reader());
    let Ok(bytes) = read_all(rt.alloc(), &mut source, 10_000_000) else {
        return ExitCode::from(2);
    };
    let Ok(lines) = str::from_utf8(bytes.as_slice()) else {
        return ExitCode::from(2);
    };
    let Ok(printed) = answers(rt.alloc(), lines) else {
        return ExitCode::from(9);
    };
    let mut out = StdSink::new(io::writer(&rt));
    match write_all(&mut out, printed.as_bytes()) {
        Ok(()) => ExitCode::from(0),
        Err(_) => ExitCode::from(8),
    }
}
