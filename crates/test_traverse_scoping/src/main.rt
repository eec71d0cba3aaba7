//! Does each call answer that may want memory, and what? Answers the rows of standard input.
//!
//! A line is a row, or says behind `//` what the rows after it show, and is printed as it is. A row has the calls, with blanks between
//! them, on the walk of an empty module that begins anew with each row: a call's name, `=`, and what it takes with `,` between. It is
//! printed with the answers behind it. A call whose condition isn't met answers `no`.
//!
//! The rows stand in `stdin`, and what must be printed for them in `stdout`, which the gate compares: told by hand, and for the rows that
//! call every factory of references by the words of its name.
#![tactic(auto)]

mod every;
mod identifiers;
mod row;
mod scopes;
mod shown;

use row::append_answers;
use shake_streams::{StdSink, StdSource, read_all, write_all};
use std::alloc::{AllocError, Global};
use std::io;
use std::process::ExitCode;

// What is printed for all lines.
fn answers(alloc: Global, lines: &str) -> Result<String, AllocError> {
    let mut printed = String::new(alloc);
    for line in lines.lines() {
        if line.starts_with("//") {
            printed.push_str(line)?;
        } else {
            append_answers(alloc, line, &mut printed)?;
        }
        printed.push_str("\n")?;
    }
    Ok(printed)
}

fn main(rt: HostRuntime) -> ExitCode {
    let mut source = StdSource::new(rt.reader());
    let Ok(bytes) = read_all(rt.alloc(), &mut source, 10_000_000) else {
        return ExitCode::from(2);
    };
    let Ok(lines) = str::from_utf8(bytes.as_slice()) else {
        return ExitCode::from(2);
    };
    let Ok(printed) = answers(rt.alloc(), lines) else {
        return ExitCode::from(9);
    };
    let mut out = StdSink::new(io::writer(&rt));
    match write_all(&mut out, printed.as_bytes()) {
        Ok(()) => ExitCode::from(0),
        Err(_) => ExitCode::from(8),
    }
}
