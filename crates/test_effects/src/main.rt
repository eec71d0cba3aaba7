//! Tells of the expressions in the rows of standard input of which type their values are, which values, whether they are true
//! in tests and whether they may have effects.
//!
//! A line is a row, or says behind `//` what the row after it shows, and is printed as it is. A row is a module as ESTree JSON,
//! of which the first statement's expression is asked about, where no name is global (`BareContext`) and where each is
//! (`NoNames`). The rows, with what must be printed for them, are written by `tools/effects_rows.py` into `stdin` and
//! `stdout`, which the gate compares.
#![tactic(auto)]

mod answer;
mod names;

use answer::answer;
use shake_streams::{StdSink, StdSource, read_all, write_all};
use std::alloc::{AllocError, Global};
use std::io;
use std::process::ExitCode;

// What is printed for a line.
fn printed_for(alloc: Global, line: &str) -> Result<String, AllocError> {
    if line.starts_with("//") {
        return String::from_str(alloc, line);
    }
    answer(alloc, line)
}

// What is printed for all lines.
fn answers(alloc: Global, lines: &str) -> Result<String, AllocError> {
    let mut printed = String::new(alloc);
    for line in lines.lines() {
        let text = printed_for(alloc, line)?;
        printed.push_str(text.as_str())?;
        printed.push_str("\n")?;
    }
    Ok(printed)
}

fn main(rt: HostRuntime) -> ExitCode {
    let mut source = StdSource::new(rt.reader());
    let Ok(bytes) = read_all(rt.alloc(), &mut source, 10_000_000) else {
        return ExitCode::from(2);
    };
    let Ok(lines) = str::from_utf8(bytes.as_slice()) else {
        return ExitCode::from(2);
    };
    let Ok(printed) = answers(rt.alloc(), lines) else {
        return ExitCode::from(9);
    };
    let mut out = StdSink::new(io::writer(&rt));
    match write_all(&mut out, printed.as_bytes()) {
        Ok(()) => ExitCode::from(0),
        Err(_) => ExitCode::from(8),
    }
}
