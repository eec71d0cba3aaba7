//! Says of the program in each row of standard input whether it breaks a rule of form, and where first.
//!
//! A line is a row, or says behind `//` what the row after it shows, and is printed as it is. A row is the ESTree JSON
//! of a program. For each it is printed whether the program is well formed, or which rule it breaks first and at
//! which place; and where the row is no tree, why. The rows, with what must be printed for them, are written by
//! `tools/form_rows.py` into `stdin` and `stdout`, which the gate compares. Rows that are data cost no proof.
#![tactic(auto)]

use form_check::well_formed;
use js_tree::{Program, count_nodes};
use json_read::read_tree;
use shake_streams::{StdSink, StdSource, read_all, write_all};
use std::alloc::{AllocError, Global};
use std::io;
use std::process::ExitCode;

// What is said of a program.
fn said_of(alloc: Global, program: &Program) -> Result<String, AllocError> {
    if count_nodes(program, 1000) > 1000 {
        return String::from_str(alloc, "too many nodes\n");
    }
    match well_formed(alloc, program) {
        Ok(()) => String::from_str(alloc, "well formed\n"),
        Err(error) => format!(in alloc; "{error}\n"),
    }
}

// What is said of the program that these bytes are read as. It owns the tree, so it calls no more than this.
fn said(alloc: Global, bytes: &[u8]) -> Result<String, AllocError> {
    match read_tree(alloc, bytes) {
        Ok(program) => said_of(alloc, &program),
        Err(error) => format!(in alloc; "no tree: {error}\n"),
    }
}

fn append_line(alloc: Global, line: &[u8], printed: &mut Vec<u8>) -> Result<(), AllocError> {
    if line.starts_with(b"//") {
        printed.extend_from_slice(line)?;
        printed.push(b'\n')?;
        return Ok(());
    }
    let text = said(alloc, line)?;
    printed.extend_from_slice(text.as_bytes())
}

// What is printed for all lines.
fn answers(alloc: Global, lines: &[u8]) -> Result<Vec<u8>, AllocError> {
    let mut printed = Vec::new(alloc);
    for line in lines.split(|byte| *byte == b'\n') {
        if !line.is_empty() {
            append_line(alloc, line, &mut printed)?;
        }
    }
    Ok(printed)
}

fn main(rt: HostRuntime) -> ExitCode {
    let mut source = StdSource::new(rt.reader());
    let Ok(lines) = read_all(rt.alloc(), &mut source, 10_000_000) else {
        return ExitCode::from(2);
    };
    let Ok(printed) = answers(rt.alloc(), lines.as_slice()) else {
        return ExitCode::from(9);
    };
    let mut out = StdSink::new(io::writer(&rt));
    match write_all(&mut out, printed.as_slice()) {
        Ok(()) => ExitCode::from(0),
        Err(_) => ExitCode::from(8),
    }
}
