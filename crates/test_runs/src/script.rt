// Hosts as rows write them: how many entries there may be, and then the host's moves, each behind a space.
use crate::fault::Fault;
use run_value::{Given, Plain, PrimitiveKind};
use run_world::{Globals, Move, Moves, Script};
use std::alloc::{AllocError, Global};
use std::rc::Rc;

// The globals that are there at the start.
static GLOBALS: [(&str, &str); 7] = [
    ("f", "h1"),
    ("o", "o2"),
    ("g", "h3"),
    ("a", "h4"),
    ("b", "h5"),
    ("use", "h6"),
    ("q", "h7"),
];

// The words of the kinds of other primitive values.
static KINDS: [(&str, PrimitiveKind); 4] = [
    ("number", PrimitiveKind::Number),
    ("bigint", PrimitiveKind::Bigint),
    ("symbol", PrimitiveKind::Symbol),
    ("string", PrimitiveKind::Text),
];

fn shared(alloc: Global, text: &str) -> Result<Rc<String>, AllocError> {
    let text = String::from_str(alloc, text)?;
    Ok(Rc::new(alloc, text)?)
}

// An object of the host by its number: `h` where it can be called, `o` where it can't.
fn object(word: &str) -> Option<Plain> {
    match word.strip_prefix('h') {
        Some(number) => Some(Plain::Host(number.parse::<u64>().ok()?, true)),
        None => {
            let number = word.strip_prefix('o')?;
            Some(Plain::Host(number.parse::<u64>().ok()?, false))
        }
    }
}

// Another primitive value of the host by its number: `false-` stands before one that is false in a test.
fn other(word: &str) -> Option<Plain> {
    let (word, truth) = match word.strip_prefix("false-") {
        Some(word) => (word, false),
        None => (word, true),
    };
    for (name, kind) in KINDS.as_slice() {
        if let Some(number) = word.strip_prefix(*name) {
            return Some(Plain::Other(number.parse::<u64>().ok()?, *kind, truth));
        }
    }
    None
}

fn primitive(word: &str) -> Option<Plain> {
    match word {
        "undefined" => Some(Plain::Undefined),
        "null" => Some(Plain::Null),
        "true" => Some(Plain::Boolean(true)),
        "false" => Some(Plain::Boolean(false)),
        _ => word.parse::<i64>().ok().map(Plain::Number),
    }
}

fn plain(alloc: Global, word: &str) -> Result<Plain, Fault> {
    match word.strip_prefix('\'') {
        Some(text) => Ok(Plain::Text(shared(alloc, text.trim_end_matches('\''))?)),
        None => primitive(word)
            .or_else(|| other(word))
            .or_else(|| object(word))
            .ok_or(Fault("no value has this word")),
    }
}

fn number(word: &str) -> Result<usize, Fault> {
    word.parse::<usize>().ok().ok_or(Fault("no number"))
}

// An own object by its number, or another value.
fn given(alloc: Global, word: &str) -> Result<Given, Fault> {
    match word.strip_prefix('#') {
        Some(word) => Ok(Given::Own(number(word)?)),
        None => Ok(Given::Plain(plain(alloc, word)?)),
    }
}

fn arguments(alloc: Global, words: &str) -> Result<Vec<Given>, Fault> {
    let mut arguments = Vec::new(alloc);
    for word in words.split(':') {
        arguments.push(given(alloc, word)?)?;
    }
    Ok(arguments)
}

// The parts of a move stand behind colons.
fn parts(words: &str) -> Result<(&str, &str), Fault> {
    words.split_once(':').ok_or(Fault("a move lacks a part"))
}

fn call_with(alloc: Global, callee: usize, this: &str, others: &str) -> Result<Move, Fault> {
    let arguments = arguments(alloc, others)?;
    let this = given(alloc, this)?;
    Ok(Move::CallOwn {
        callee,
        this,
        arguments,
    })
}

// An own object is called with a receiver, and with the arguments that may stand behind it.
fn call(alloc: Global, words: &str) -> Result<Move, Fault> {
    let (callee, rest) = parts(words)?;
    let callee = number(callee)?;
    match rest.split_once(':') {
        Some((this, others)) => call_with(alloc, callee, this, others),
        None => Ok(Move::CallOwn {
            callee,
            this: given(alloc, rest)?,
            arguments: Vec::new(alloc),
        }),
    }
}

fn set_global(alloc: Global, words: &str) -> Result<Move, Fault> {
    let (name, value) = parts(words)?;
    let name = shared(alloc, name)?;
    let value = given(alloc, value)?;
    Ok(Move::SetGlobal { name, value })
}

fn set_import(alloc: Global, words: &str) -> Result<Move, Fault> {
    let (source, rest) = parts(words)?;
    let (name, value) = parts(rest)?;
    let source = shared(alloc, source)?;
    let name = shared(alloc, name)?;
    let value = Some(given(alloc, value)?);
    Ok(Move::SetImport {
        source,
        name,
        value,
    })
}

fn unset_import(alloc: Global, words: &str) -> Result<Move, Fault> {
    let (source, name) = parts(words)?;
    let source = shared(alloc, source)?;
    let name = shared(alloc, name)?;
    Ok(Move::SetImport {
        source,
        name,
        value: None,
    })
}

fn move_of(alloc: Global, word: &str) -> Result<Move, Fault> {
    let (verb, rest) = word.split_once(':').unwrap_or((word, ""));
    match verb {
        "fine" => Ok(Move::Answer {
            value: Given::Plain(Plain::Undefined),
        }),
        "answer" => Ok(Move::Answer {
            value: given(alloc, rest)?,
        }),
        "throw" => Ok(Move::Refuse {
            value: given(alloc, rest)?,
        }),
        "call" => call(alloc, rest),
        _ => changing_move(alloc, verb, rest),
    }
}

// A move that changes globals or imports.
fn changing_move(alloc: Global, verb: &str, rest: &str) -> Result<Move, Fault> {
    match verb {
        "set" => set_global(alloc, rest),
        "remove" => Ok(Move::RemoveGlobal {
            name: shared(alloc, rest)?,
        }),
        "import" => set_import(alloc, rest),
        "unset" => unset_import(alloc, rest),
        _ => Err(Fault("no move has this word")),
    }
}

/// How many entries there may be.
pub(crate) fn read_bound(host: &str) -> Result<u32, Fault> {
    let bound = host.split(' ').next().unwrap_or("");
    bound.parse::<u32>().ok().ok_or(Fault("no bound"))
}

fn global(alloc: Global, name: &str, value: &str) -> Result<(Rc<String>, Plain), Fault> {
    let name = shared(alloc, name)?;
    let value = plain(alloc, value)?;
    Ok((name, value))
}

fn globals(alloc: Global) -> Result<Vec<(Rc<String>, Plain)>, Fault> {
    let mut globals = Vec::new(alloc);
    for (name, value) in GLOBALS.as_slice() {
        globals.push(global(alloc, name, value)?)?;
    }
    Ok(globals)
}

fn moves(alloc: Global, host: &str) -> Result<Vec<Move>, Fault> {
    let mut moves = Vec::new(alloc);
    for word in host.split(' ').skip(1) {
        moves.push(move_of(alloc, word)?)?;
    }
    Ok(moves)
}

/// What a host is given to do.
pub(crate) fn read_script(alloc: Global, host: &str) -> Result<Script, Fault> {
    let globals = Globals {
        pairs: globals(alloc)?,
    };
    let moves = Moves {
        all: moves(alloc, host)?,
    };
    Ok(Script { globals, moves })
}
