//! Which fresh names are answered where some are taken? Answers the rows of standard input.
//!
//! A line is a row, or says behind `//` what the rows after it show, and is printed as it is. A row has four parts with `|` between
//! them: the names of a scoping's symbols, those that nothing declares, the names that its generator is told, and those that it is
//! asked for. It is printed with the answers behind it.
//!
//! The rows stand in `stdin`, and what must be printed for them, told by hand, in `stdout`, which the gate compares.
#![tactic(auto)]

mod row;

use row::append_answers;
use shake_streams::{StdSink, StdSource, read_all, write_all};
use std::alloc::{AllocError, Global};
use std::io;
use std::process::ExitCode;

// What is printed for all lines.
fn answers(alloc: Global, lines: &str) -> Result<String, AllocError> {
    let mut printed = String::new(alloc);
    for line in lines.lines() {
        if line.starts_with("//") {
            printed.push_str(line)?;
        } else {
            append_answers(alloc, line, &mut printed)?;
        }
        printed.push_str("\n")?;
    }
    Ok(printed)
}

fn main(rt: HostRuntime) -> ExitCode {
    let mut source = StdSource::new(rt.reader());
    let Ok(bytes) = read_all(rt.alloc(), &mut source, 10_000_000) else {
        return ExitCode::from(2);
    };
    let Ok(lines) = str::from_utf8(bytes.as_slice()) else {
        return ExitCode::from(2);
    };
    let Ok(printed) = answers(rt.alloc(), lines) else {
        return ExitCode::from(9);
    };
    let mut out = StdSink::new(io::writer(&rt));
    match write_all(&mut out, printed.as_bytes()) {
        Ok(()) => ExitCode::from(0),
        Err(_) => ExitCode::from(8),
    }
}
