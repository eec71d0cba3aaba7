//! What does the author of a pass write, that is a walk with one hook?
//!
//! `cleaner` has the walker. It takes the empty statements out of the lists of functions' bodies, and out of no other list
//! (`specs/Bodies.antt`). `specs/Cleaning.antt` has its single edits, the rule that the hook applies, and what the hook knows where it
//! asks for no other walk. `proofs/Allowed.antt` shows that each edit is one that a dead code remover may make, `Editing` that the rule
//! is a list of them, `Calling` that the call does what the rule says, and `Looking` what a walk saw that asked for no other. `clean`
//! has the pass: edits lead from the marked program to what is left, and if no other walk is asked for, no body has an empty statement.
//!
//! A line of standard input is a program as ESTree JSON, or says behind `//` what the row after it shows. Printed is what is left of the
//! program, and `again` if another walk is asked for, then what that one leaves. What must be printed was told by hand.
#![tactic(auto)]

mod clean;
mod cleaner;
mod list;
mod row;

use row::append_left;
use shake_streams::{StdSink, StdSource, read_all, write_all};
use std::alloc::{AllocError, Global};
use std::io;
use std::process::ExitCode;

// What is printed for all lines.
fn answers(alloc: Global, lines: &str) -> Result<String, AllocError> {
    let mut printed = String::new(alloc);
    for line in lines.lines() {
        if line.starts_with("//") {
            printed.push_str(line)?;
            printed.push_str("\n")?;
        } else {
            append_left(alloc, line, &mut printed)?;
        }
    }
    Ok(printed)
}

fn main(rt: HostRuntime) -> ExitCode {
    let mut source = StdSource::new(rt.reader());
    let Ok(bytes) = read_all(rt.alloc(), &mut source, 10_000_000) else {
        return ExitCode::from(2);
    };
    let Ok(lines) = str::from_utf8(bytes.as_slice()) else {
        return ExitCode::from(2);
    };
    let Ok(printed) = answers(rt.alloc(), lines) else {
        return ExitCode::from(9);
    };
    let mut out = StdSink::new(io::writer(&rt));
    match write_all(&mut out, printed.as_bytes()) {
        Ok(()) => ExitCode::from(0),
        Err(_) => ExitCode::from(8),
    }
}
