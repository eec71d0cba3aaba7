// The library call, and the calls that read and write trees.
use js_tree::Program;
use shake::{CompressOptions, Minifier, MinifierOptions, MinifierReturn, read_tree, write_tree};
use std::alloc::{AllocError, Global};

fn append(text: &str, printed: &mut Vec<u8>) -> Result<(), AllocError> {
    printed.extend_from_slice(text.as_bytes())?;
    Ok(())
}

fn append_tree(alloc: Global, program: &Program, printed: &mut Vec<u8>) -> Result<(), AllocError> {
    let text = write_tree(alloc, program)?;
    append(text.as_str(), printed)?;
    append("\n", printed)
}

// That keep names of imports.
fn with_imports(alloc: Global) -> CompressOptions {
    let mut options = CompressOptions::dce(alloc);
    options.treeshake.invalid_import_side_effects = true;
    options
}

fn options_named(alloc: Global, name: &str) -> MinifierOptions {
    match name {
        "dce" => MinifierOptions {
            compress: Some(CompressOptions::dce(alloc)),
        },
        "smallest" => MinifierOptions::default(alloc),
        "safest" => MinifierOptions {
            compress: Some(CompressOptions::safest(alloc)),
        },
        "imports" => MinifierOptions {
            compress: Some(with_imports(alloc)),
        },
        _ => MinifierOptions { compress: None },
    }
}

fn said(alloc: Global, done: &MinifierReturn) -> Result<String, AllocError> {
    let (passes, scopes) = (done.iterations, done.scoping.scopes_len());
    format!(in alloc; "passes {passes} scopes {scopes}\n")
}

// What the library call says of a program, in whose place it puts what is left.
fn minified(alloc: Global, options: &str, program: &mut Program) -> Result<String, AllocError> {
    match Minifier::new(options_named(alloc, options)).dce(alloc, program) {
        Ok(done) => said(alloc, &done),
        Err(error) => format!(in alloc; "{error}\n"),
    }
}

fn append_minified(
    alloc: Global,
    options: &str,
    program: &mut Program,
    printed: &mut Vec<u8>,
) -> Result<(), AllocError> {
    let said = minified(alloc, options, program)?;
    append(said.as_str(), printed)?;
    append_tree(alloc, program, printed)
}

/// Appends what the library call with these options says of a program, and what is left.
pub(crate) fn append_call(
    alloc: Global,
    options: &str,
    text: &str,
    printed: &mut Vec<u8>,
) -> Result<(), AllocError> {
    match read_tree(alloc, text.as_bytes()) {
        Ok(mut program) => append_minified(alloc, options, &mut program, printed),
        Err(_) => append("no tree\n", printed),
    }
}

// Where a program stands, how many children its root has, and how it is written.
fn append_place(alloc: Global, program: &Program, printed: &mut Vec<u8>) -> Result<(), AllocError> {
    let span = program.root().span();
    let (start, end, children) = (span.start, span.end, program.root().children().len());
    let place = format!(in alloc; "at {start} {end}, children {children}\n")?;
    append(place.as_str(), printed)?;
    append_tree(alloc, program, printed)
}

/// Appends where a program stands, and how it is written.
pub(crate) fn append_span(
    alloc: Global,
    text: &str,
    printed: &mut Vec<u8>,
) -> Result<(), AllocError> {
    match read_tree(alloc, text.as_bytes()) {
        Ok(program) => append_place(alloc, &program, printed),
        Err(_) => append("no tree\n", printed),
    }
}
