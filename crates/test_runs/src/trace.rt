// Traces as rows write them: the events, each with the exports of that moment, and the ending.
use run_value::{
    Act, Ending, Event, Parts, Plain, PrimitiveKind, Shown, ShownExport, ShownExports, Sort, Trace,
};
use std::alloc::{AllocError, Global};
use std::fmt::Write;
use std::rc::Rc;

// What is still to be written, the next last.
#[derive(Clone, Copy)]
enum Piece<'a> {
    Word(&'a str),
    Value(&'a Shown),
}

fn print_text(out: &mut String, text: &str) -> Result<(), AllocError> {
    write!(out, "'{text}'")
}

fn print_object(out: &mut String, number: u64, callable: bool) -> Result<(), AllocError> {
    let sort = if callable { 'h' } else { 'o' };
    write!(out, "{sort}{number}")
}

fn kind_word(kind: PrimitiveKind) -> &'static str {
    match kind {
        PrimitiveKind::Number => "number",
        PrimitiveKind::Bigint => "bigint",
        PrimitiveKind::Symbol => "symbol",
        PrimitiveKind::Text => "string",
    }
}

// `false-` stands before one that is false in a test.
fn print_other(
    out: &mut String,
    number: u64,
    kind: PrimitiveKind,
    truth: bool,
) -> Result<(), AllocError> {
    let before = if truth { "" } else { "false-" };
    let kind = kind_word(kind);
    write!(out, "{before}{kind}{number}")
}

fn print_plain(out: &mut String, plain: &Plain) -> Result<(), AllocError> {
    match plain {
        Plain::Undefined => out.push_str("undefined"),
        Plain::Null => out.push_str("null"),
        Plain::Boolean(truth) => write!(out, "{truth}"),
        Plain::Number(number) => write!(out, "{number}"),
        Plain::Text(text) => print_text(out, text.as_str()),
        Plain::Host(number, callable) => print_object(out, *number, *callable),
        Plain::Other(number, kind, truth) => print_other(out, *number, *kind, *truth),
    }
}

fn sort_word(sort: Sort) -> &'static str {
    match sort {
        Sort::AFunction => "function",
        Sort::AnObject => "object",
        Sort::AnArray => "array",
        Sort::ATypeError => "TypeError",
        Sort::AReferenceError => "ReferenceError",
    }
}

// What encloses the parts of a literal; nothing else has parts.
fn brackets(sort: Sort) -> (&'static str, &'static str) {
    match sort {
        Sort::AnObject => ("{", "}"),
        Sort::AnArray => ("[", "]"),
        _ => ("", ""),
    }
}

fn push_part<'a>(
    pieces: &mut Vec<Piece<'a>>,
    first: bool,
    key: Option<&'a str>,
    value: &'a Shown,
) -> Result<(), AllocError> {
    pieces.push(Piece::Value(value))?;
    if let Some(key) = key {
        pieces.push(Piece::Word("="))?;
        pieces.push(Piece::Word(key))?;
    }
    if !first {
        pieces.push(Piece::Word(" "))?;
    }
    Ok(())
}

fn push_values<'a>(
    pieces: &mut Vec<Piece<'a>>,
    keys: &'a [Rc<String>],
    values: &'a [Shown],
) -> Result<(), AllocError> {
    for (i, value) in values.iter().enumerate().rev() {
        let key = keys.get(i).map(|key| key.as_str());
        push_part(pieces, i == 0, key, value)?;
    }
    Ok(())
}

fn push_parts<'a>(
    pieces: &mut Vec<Piece<'a>>,
    sort: Sort,
    parts: &'a Parts,
) -> Result<(), AllocError> {
    let (opens, closes) = brackets(sort);
    let (keys, values) = parts.parts();
    pieces.push(Piece::Word(closes))?;
    push_values(pieces, keys, values)?;
    pieces.push(Piece::Word(opens))?;
    Ok(())
}

fn print_value<'a>(
    out: &mut String,
    pieces: &mut Vec<Piece<'a>>,
    shown: &'a Shown,
) -> Result<(), AllocError> {
    match shown {
        Shown::Plainly(plain) => print_plain(out, plain),
        Shown::Again(number) => write!(out, "#{number}"),
        Shown::First(number, sort, parts) => {
            write!(out, "#{number}:")?;
            out.push_str(sort_word(*sort))?;
            push_parts(pieces, *sort, parts)
        }
    }
}

fn print_shown(alloc: Global, out: &mut String, shown: &Shown) -> Result<(), AllocError> {
    let mut pieces = Vec::new(alloc);
    pieces.push(Piece::Value(shown))?;
    for _ in 0..u64::MAX {
        match pieces.pop() {
            Some(Piece::Word(word)) => out.push_str(word)?,
            Some(Piece::Value(shown)) => print_value(out, &mut pieces, shown)?,
            None => return Ok(()),
        }
    }
    Ok(())
}

fn print_one(alloc: Global, out: &mut String, word: &str, shown: &Shown) -> Result<(), AllocError> {
    out.push_str(word)?;
    out.push_str(" ")?;
    print_shown(alloc, out, shown)
}

fn print_two(
    alloc: Global,
    out: &mut String,
    word: &str,
    first: &Shown,
    second: &Shown,
) -> Result<(), AllocError> {
    print_one(alloc, out, word, first)?;
    print_one(alloc, out, "", second)
}

fn print_arguments(alloc: Global, out: &mut String, arguments: &[Shown]) -> Result<(), AllocError> {
    out.push_str(" (")?;
    for (i, argument) in arguments.iter().enumerate() {
        if i > 0 {
            out.push_str(" ")?;
        }
        print_shown(alloc, out, argument)?;
    }
    out.push_str(")")
}

fn print_named(out: &mut String, word: &str, name: &str) -> Result<(), AllocError> {
    write!(out, "{word} {name}")
}

fn print_call(
    alloc: Global,
    out: &mut String,
    callee: &Shown,
    this: &Shown,
    arguments: &[Shown],
) -> Result<(), AllocError> {
    print_two(alloc, out, "call", callee, this)?;
    print_arguments(alloc, out, arguments)
}

fn print_new(
    alloc: Global,
    out: &mut String,
    callee: &Shown,
    arguments: &[Shown],
) -> Result<(), AllocError> {
    print_one(alloc, out, "new", callee)?;
    print_arguments(alloc, out, arguments)
}

fn print_set(
    alloc: Global,
    out: &mut String,
    object: &Shown,
    key: &Shown,
    value: &Shown,
) -> Result<(), AllocError> {
    print_two(alloc, out, "set", object, key)?;
    print_one(alloc, out, "", value)
}

fn print_write(
    alloc: Global,
    out: &mut String,
    name: &str,
    value: &Shown,
) -> Result<(), AllocError> {
    print_named(out, "write", name)?;
    print_one(alloc, out, "", value)
}

fn print_act(alloc: Global, out: &mut String, act: &Act) -> Result<(), AllocError> {
    match act {
        Act::Load { source } => print_named(out, "load", source.as_str()),
        Act::Get { object, key } => print_two(alloc, out, "get", object, key),
        Act::Set { object, key, value } => print_set(alloc, out, object, key, value),
        Act::In { left, right } => print_two(alloc, out, "in", left, right),
        Act::Instanceof { left, right } => print_two(alloc, out, "instanceof", left, right),
        Act::Construct { callee, arguments } => {
            print_new(alloc, out, callee, arguments.as_slice())
        }
        Act::Call {
            callee,
            this,
            arguments,
        } => { print_call(alloc, out, callee, this, arguments.as_slice()) }
        Act::Write { name, value } => print_write(alloc, out, name.as_str(), value),
        Act::Returned { value } => print_one(alloc, out, "return", value),
        Act::Threw { value } => print_one(alloc, out, "throw", value),
        Act::Finished => out.push_str("done"),
        Act::Failed { thrown } => print_one(alloc, out, "failed", thrown),
    }
}

// `a=1` has a value, `a?` has none yet, `a<-m.b` is b of the module m.
fn print_export(alloc: Global, out: &mut String, export: &ShownExport) -> Result<(), AllocError> {
    match export {
        ShownExport::Value { name, shown } => {
            write!(out, "{name}=")?;
            print_shown(alloc, out, shown)
        }
        ShownExport::Uninitialised(name) => write!(out, "{name}?"),
        ShownExport::Import {
            name,
            source,
            imported,
        } => write!(out, "{name}<-{source}.{imported}"),
    }
}

// Behind the names stands `*m` for each module m that is exported whole.
fn print_exports(
    alloc: Global,
    out: &mut String,
    exports: &ShownExports,
) -> Result<(), AllocError> {
    if exports.names.is_empty() && exports.stars.is_empty() {
        return Ok(());
    }
    out.push_str(" {")?;
    print_names(alloc, out, exports.names.as_slice())?;
    print_stars(out, exports.stars.as_slice())?;
    out.push_str(" }")
}

fn print_names(alloc: Global, out: &mut String, names: &[ShownExport]) -> Result<(), AllocError> {
    for export in names {
        out.push_str(" ")?;
        print_export(alloc, out, export)?;
    }
    Ok(())
}

fn print_stars(out: &mut String, stars: &[String]) -> Result<(), AllocError> {
    for source in stars {
        write!(out, " *{source}")?;
    }
    Ok(())
}

fn print_event(alloc: Global, out: &mut String, event: &Event) -> Result<(), AllocError> {
    print_act(alloc, out, &event.act)?;
    print_exports(alloc, out, &event.exports)?;
    out.push_str("; ")
}

fn print_ending(alloc: Global, out: &mut String, ending: &Ending) -> Result<(), AllocError> {
    match ending {
        Ending::Ended(exports) => {
            out.push_str("ended")?;
            print_exports(alloc, out, exports)
        }
        Ending::HostStopped => out.push_str("stopped by the host"),
        Ending::Out => out.push_str("out of entries"),
        Ending::Uncovered => out.push_str("uncovered"),
    }
}

/// The events, each with the exports of that moment, and the ending.
pub(crate) fn print_trace(alloc: Global, trace: &Trace) -> Result<String, AllocError> {
    let mut out = String::new(alloc);
    for event in &trace.events.all {
        print_event(alloc, &mut out, event)?;
    }
    print_ending(alloc, &mut out, &trace.ending)?;
    Ok(out)
}
