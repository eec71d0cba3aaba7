//! What does the program answer, write and say, and what do the calls that it is made of answer?
//!
//! A line of standard input is a row, or says behind `//` what the rows after it show, and is printed as it is. A row
//! is the text of a program for `shake dce`, or behind `--tree-only ` for `shake dce --tree-only`; for each the code of
//! the answer is printed, then what went to the output, and then what went to standard error. Other rows begin with a
//! word, what it is about and a colon, and the text stands behind these:
//!
//! - `words shake,dce,`: a run with these words, each with a comma behind it; `unread shake,dce,` where nothing can be read
//! - `read 1`, `write 1`: a run whose first call of its source or of its sink fails
//! - `room 10`: a run whose sink has room for so many bytes
//! - `call dce`, `call smallest`, `call safest`, `call imports` (those of `dce`, that keep names of imports), `call none`: the library call
//!   with these options, and what is left of the program
//! - `span 0`: where the program stands, how many children its root has, and how it is written
//! - `codes 0`: the codes of all answers
//!
//! The rows, with all that must be printed for them, are written by `tools/examples.py` and `tools/run_rows.py` into `stdin` and `stdout`,
//! which the gate compares. Rows that are data cost no proof.
#![tactic(auto)]

mod call;
mod row;
mod run;

use crate::row::append_row;
use shake_streams::{StdSink, StdSource, read_all, write_all};
use std::alloc::{AllocError, Global};
use std::io;
use std::process::ExitCode;

// What is printed for all lines.
fn answers(alloc: Global, lines: &[u8]) -> Result<Vec<u8>, AllocError> {
    let mut printed = Vec::new(alloc);
    for line in lines.split(|byte| *byte == b'\n') {
        if !line.is_empty() {
            append_row(alloc, line, &mut printed)?;
        }
    }
    Ok(printed)
}

fn main(rt: HostRuntime) -> ExitCode {
    let mut source = StdSource::new(rt.reader());
    let Ok(lines) = read_all(rt.alloc(), &mut source, 10_000_000) else {
        return ExitCode::from(2);
    };
    let Ok(printed) = answers(rt.alloc(), lines.as_slice()) else {
        return ExitCode::from(9);
    };
    let mut out = StdSink::new(io::writer(&rt));
    match write_all(&mut out, printed.as_slice()) {
        Ok(()) => ExitCode::from(0),
        Err(_) => ExitCode::from(8),
    }
}
