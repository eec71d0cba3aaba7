//! What does the context of a walk answer, and what do its calls do?
//!
//! A line of standard input is a row, or says behind `//` what the rows after it show, and is printed as it is. A row is a
//! question, a colon and the JSON of a tree, whose first statement is asked about. The questions:
//!
//! - `name`: two fresh names that are made of it and bound, each with its symbol; then the number of a reference to `y`, which
//!   nothing declares, and whether it is global
//! - `drop`: which references are marked once it is told to leave, whether a direct call of `eval` left, and whether
//!   another pass is asked for
//! - `keep`: whether it is empty once a closure that marks nothing made it so, and then the same
//!
//! The rows stand in `stdin`, and what must be printed for them, told by hand, in `stdout`, which the gate compares.
#![tactic(auto)]

mod answer;

use answer::append_answer;
use shake_streams::{StdSink, StdSource, read_all, write_all};
use std::alloc::{AllocError, Global};
use std::io;
use std::process::ExitCode;

fn append_line(alloc: Global, line: &str, printed: &mut String) -> Result<(), AllocError> {
    match line.split_once(':') {
        Some((question, tree)) if !line.starts_with("//") => {
            append_answer(alloc, question, tree, printed)
        }
        _ => writeln!(printed, "{line}"),
    }
}

// What is printed for all lines.
fn answers(alloc: Global, lines: &str) -> Result<String, AllocError> {
    let mut printed = String::new(alloc);
    for line in lines.lines() {
        append_line(alloc, line, &mut printed)?;
    }
    Ok(printed)
}

fn main(rt: HostRuntime) -> ExitCode {
    let mut source = StdSource::new(rt.reader());
    let Ok(bytes) = read_all(rt.alloc(), &mut source, 10_000_000) else {
        return ExitCode::from(2);
    };
    let Ok(lines) = str::from_utf8(bytes.as_slice()) else {
        return ExitCode::from(4);
    };
    let Ok(printed) = answers(rt.alloc(), lines) else {
        return ExitCode::from(9);
    };
    let mut out = StdSink::new(io::writer(&rt));
    match write_all(&mut out, printed.as_bytes()) {
        Ok(()) => ExitCode::from(0),
        Err(_) => ExitCode::from(8),
    }
}
