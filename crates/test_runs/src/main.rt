//! Does `run_core` run programs as ECMA-262 says? Prints the trace of each row of standard input.
//!
//! A line is a row, or a comment behind `//`, as the text of the program in the row after it, and is printed as it
//! is. A row is what the host does (`script`), a tab, and the ESTree JSON of a program, or words for a tree that no
//! text gives (`misplaced`); for it the events and the ending are printed, on one line (`trace`). The rows, with all
//! that must be printed for them, are written by `tools/runs.py` from the table `tools/runs.txt` into `stdin` and
//! `stdout`, which the gate compares. Rows that are data cost no proof, and each part of the machine is run by some
//! of them: contracts say what its answers are, and none that one comes.
#![tactic(auto)]

mod fault;
mod misplaced;
mod script;
mod trace;

use fault::Fault;
use js_tree::Program;
use json_read::read_tree;
use misplaced::misplaced;
use run_core::run;
use run_world::Script;
use script::{read_bound, read_script};
use shake_streams::{StdSink, StdSource, read_all, write_all};
use std::alloc::{AllocError, Global};
use std::io;
use std::process::ExitCode;
use trace::print_trace;

fn trace_with(
    alloc: Global,
    program: &Program,
    script: &Script,
    bound: u32,
) -> Result<String, AllocError> {
    let trace = run(alloc, program, script, bound)?;
    print_trace(alloc, &trace)
}

fn trace_of(alloc: Global, program: &Program, host: &str) -> Result<String, Fault> {
    let bound = read_bound(host)?;
    let script = read_script(alloc, host)?;
    Ok(trace_with(alloc, program, &script, bound)?)
}

fn trace_of_text(alloc: Global, text: &str, host: &str) -> Result<String, Fault> {
    match read_tree(alloc, text.as_bytes()) {
        Ok(program) => trace_of(alloc, &program, host),
        Err(_) => Err(Fault("no tree")),
    }
}

fn trace_of_words(alloc: Global, words: &str, host: &str) -> Result<String, Fault> {
    match misplaced(alloc, words)? {
        Some(program) => trace_of(alloc, &program, host),
        None => Err(Fault("no tree has these words")),
    }
}

fn trace_of_row(alloc: Global, row: &str) -> Result<String, Fault> {
    match row.split_once('\t') {
        Some((host, tree)) if tree.starts_with('{') => trace_of_text(alloc, tree, host),
        Some((host, words)) => trace_of_words(alloc, words, host),
        None => Err(Fault("no row")),
    }
}

fn append_line(alloc: Global, line: &str, printed: &mut String) -> Result<(), AllocError> {
    if line.starts_with("//") {
        return printed.push_str(line);
    }
    match trace_of_row(alloc, line) {
        Ok(trace) => printed.push_str(trace.as_str()),
        Err(Fault(why)) => printed.push_str(why),
    }
}

// What is printed for all lines.
fn traces(alloc: Global, lines: &str) -> Result<String, AllocError> {
    let mut printed = String::new(alloc);
    for line in lines.split('\n') {
        if !line.is_empty() {
            append_line(alloc, line, &mut printed)?;
            printed.push_str("\n")?;
        }
    }
    Ok(printed)
}

fn traces_of_bytes(alloc: Global, bytes: &[u8]) -> Result<String, AllocError> {
    match std::str::from_utf8(bytes) {
        Ok(lines) => traces(alloc, lines),
        Err(_) => String::from_str(alloc, "no text\n"),
    }
}

fn main(rt: HostRuntime) -> ExitCode {
    let mut source = StdSource::new(rt.reader());
    let Ok(bytes) = read_all(rt.alloc(), &mut source, 10_000_000) else {
        return ExitCode::from(2);
    };
    let Ok(printed) = traces_of_bytes(rt.alloc(), bytes.as_slice()) else {
        return ExitCode::from(9);
    };
    let mut out = StdSink::new(io::writer(&rt));
    match write_all(&mut out, printed.as_bytes()) {
        Ok(()) => ExitCode::from(0),
        Err(_) => ExitCode::from(8),
    }
}
