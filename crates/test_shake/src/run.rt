// Runs of the program.
use shake::{Status, shake};
use shake_streams::{MemSink, MemSource};
use std::alloc::{AllocError, Global};

/// A run: its words, each with a comma behind it, which calls of its source and its sink fail, where 0 is none, and how
/// much room the sink has.
#[derive(Clone, Copy)]
pub(crate) struct Run<'a> {
    words: &'a str,
    failing_read: u64,
    failing_write: u64,
    room: usize,
}

impl<'a> Run<'a> {
    pub(crate) fn of_words(words: &'a str) -> Run<'a> {
        Run {
            words,
            failing_read: 0,
            failing_write: 0,
            room: 1_000_000,
        }
    }

    // One of `shake dce`, with this number.
    fn with_number(word: &str, number: u64) -> Option<Run<'a>> {
        let mut run = Run::of_words("shake,dce,");
        match word {
            "read" => run.failing_read = number,
            "write" => run.failing_write = number,
            "room" => run.room = usize::try_from(number).unwrap_or(0),
            _ => return None,
        }
        Some(run)
    }

    /// The run of a row that begins with this word, if one does.
    pub(crate) fn named(word: &str, about: &'a str) -> Option<Run<'a>> {
        let mut run = Run::of_words(about);
        match word {
            "words" => Some(run),
            "unread" => {
                run.failing_read = 1;
                Some(run)
            }
            _ => Run::with_number(word, about.parse::<u64>().ok()?),
        }
    }
}

fn words_of(alloc: Global, words: &str) -> Result<Vec<String>, AllocError> {
    let mut list = Vec::new(alloc);
    for word in words.split_terminator(',') {
        list.push(String::from_str(alloc, word)?)?;
    }
    Ok(list)
}

fn append_run_of(
    alloc: Global,
    words: &[String],
    run: Run,
    bytes: &[u8],
    printed: &mut Vec<u8>,
) -> Result<(), AllocError> {
    let mut source = MemSource::new(alloc, bytes, &[run.failing_read])?;
    let mut out = MemSink::new(alloc, run.room, &[run.failing_write])?;
    let mut err = MemSink::new(alloc, 1000, &[])?;
    let status = shake(alloc, words, &mut source, &mut out, &mut err);
    append_outcome(alloc, status, &out, &err, printed)
}

/// Appends what a run on these bytes answers, writes and says.
pub(crate) fn append_run(
    alloc: Global,
    run: Run,
    bytes: &[u8],
    printed: &mut Vec<u8>,
) -> Result<(), AllocError> {
    let words = words_of(alloc, run.words)?;
    append_run_of(alloc, words.as_slice(), run, bytes, printed)
}

fn append_code(alloc: Global, status: Status, printed: &mut Vec<u8>) -> Result<(), AllocError> {
    let code = status.code();
    let line = format!(in alloc; "{code}\n")?;
    printed.extend_from_slice(line.as_bytes())?;
    Ok(())
}

fn append_outcome(
    alloc: Global,
    status: Status,
    out: &MemSink,
    err: &MemSink,
    printed: &mut Vec<u8>,
) -> Result<(), AllocError> {
    append_code(alloc, status, printed)?;
    printed.extend_from_slice(out.written())?;
    if !out.written().ends_with(b"\n") && !out.written().is_empty() {
        printed.push(b'\n')?;
    }
    printed.extend_from_slice(err.written())?;
    Ok(())
}

static STATUSES: [Status; 12] = [
    Status::Ok,
    Status::Usage,
    Status::ReadFault,
    Status::InputTooLong,
    Status::Syntax,
    Status::Tree,
    Status::TooLarge,
    Status::IllFormed,
    Status::WriteFault,
    Status::OutOfMemory,
    Status::BadScript,
    Status::NotCore,
];

/// Appends the codes of all answers.
pub(crate) fn append_codes(alloc: Global, printed: &mut Vec<u8>) -> Result<(), AllocError> {
    for status in STATUSES.as_slice() {
        append_code(alloc, *status, printed)?;
    }
    Ok(())
}
