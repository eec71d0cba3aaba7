// What is printed for a row.
use crate::call::{append_call, append_span};
use crate::run::{Run, append_codes, append_run};
use std::alloc::{AllocError, Global};

// A row about something else than a run.
fn append_other(
    alloc: Global,
    word: &str,
    about: &str,
    text: &str,
    printed: &mut Vec<u8>,
) -> Result<(), AllocError> {
    match word {
        "call" => append_call(alloc, about, text, printed),
        "span" => append_span(alloc, text, printed),
        _ => append_codes(alloc, printed),
    }
}

// Whether a row that begins with this word is about something else than a run.
fn is_other(word: &str) -> bool {
    word == "call" || word == "span" || word == "codes"
}

fn append_text(alloc: Global, line: &str, printed: &mut Vec<u8>) -> Result<(), AllocError> {
    if let Some(tree) = line.strip_prefix("--tree-only ") {
        return append_run(
            alloc,
            Run::of_words("shake,dce,--tree-only,"),
            tree.as_bytes(),
            printed,
        );
    }
    let (front, text) = line.split_once(':').unwrap_or((line, ""));
    let (word, about) = front.split_once(' ').unwrap_or((front, ""));
    if is_other(word) {
        return append_other(alloc, word, about, text, printed);
    }
    match Run::named(word, about) {
        Some(run) => append_run(alloc, run, text.as_bytes(), printed),
        None => append_run(alloc, Run::of_words("shake,dce,"), line.as_bytes(), printed),
    }
}

/// Appends what is printed for a row. One that is no UTF-8 is the text of a program.
pub(crate) fn append_row(
    alloc: Global,
    line: &[u8],
    printed: &mut Vec<u8>,
) -> Result<(), AllocError> {
    if line.starts_with(b"//") {
        printed.extend_from_slice(line)?;
        printed.push(b'\n')?;
        return Ok(());
    }
    match str::from_utf8(line) {
        Ok(text) => append_text(alloc, text, printed),
        Err(_) => append_run(alloc, Run::of_words("shake,dce,"), line, printed),
    }
}
