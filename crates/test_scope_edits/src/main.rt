//! What does a table say after some edits? Answers the rows of standard input.
//!
//! A line is a row, or says behind `//` what the rows after it show, and is printed as it is. A row is calls with
//! spaces between them, on the table of an empty module, and is printed with their answers behind it. A call is a
//! word, and behind `=` what it takes, with commas between. A number that may be none is `-` then.
//!
//! - `scope=PARENT,FLAGS`, `symbol=NAME,FLAGS,SCOPE`, `reference=SCOPE,SYMBOL,FLAGS`: appends one, and answers its
//!   number
//! - `parent=SCOPE,PARENT`, `flags=SCOPE,FLAGS`, `bind=SCOPE,NAME,SYMBOL`: changes a scope
//! - `list=SYMBOL,REFERENCE`, `unlist=SYMBOL,REFERENCE`: puts a reference into a symbol's list, and takes it out
//! - `name=NAME,REFERENCE`, `unname=NAME,REFERENCE`: the same for a name that nothing declares
//! - `bound_symbol=NAME,FLAGS,SCOPE`, `bound_reference=SCOPE,SYMBOL,FLAGS`, `unbound_reference=SCOPE,NAME,FLAGS`:
//!   appends one that its scope binds, or that the list of its symbol or name has, and answers its number
//! - `exclude=N,N`: takes the references with these numbers out of all symbols' lists
//! - `refresh`: gives the scopes the bit of direct eval as the empty module has it, which is nowhere
//! - `scopes`, `symbols`, `references`, `names`: what is in the table
//!
//! A call whose condition does not hold answers `no`. The rows stand in `stdin`, and what must be printed for them,
//! told by hand, in `stdout`, which the gate compares.
#![tactic(auto)]

mod edit;
mod row;
mod table;

use row::append_answers;
use shake_streams::{StdSink, StdSource, read_all, write_all};
use std::alloc::{AllocError, Global};
use std::io;
use std::process::ExitCode;

// What is printed for all lines.
fn answers(alloc: Global, lines: &str) -> Result<String, AllocError> {
    let mut printed = String::new(alloc);
    for line in lines.lines() {
        if line.starts_with("//") {
            printed.push_str(line)?;
        } else {
            append_answers(alloc, line, &mut printed)?;
        }
        printed.push_str("\n")?;
    }
    Ok(printed)
}

fn main(rt: HostRuntime) -> ExitCode {
    let mut source = StdSource::new(rt.reader());
    let Ok(bytes) = read_all(rt.alloc(), &mut source, 10_000_000) else {
        return ExitCode::from(2);
    };
    let Ok(lines) = str::from_utf8(bytes.as_slice()) else {
        return ExitCode::from(2);
    };
    let Ok(printed) = answers(rt.alloc(), lines) else {
        return ExitCode::from(9);
    };
    let mut out = StdSink::new(io::writer(&rt));
    match write_all(&mut out, printed.as_bytes()) {
        Ok(()) => ExitCode::from(0),
        Err(_) => ExitCode::from(8),
    }
}
