// What the program says on standard error.
ghost use Rattle.std.specs.Prelude.{◌≡◌, ◌≤◌, ◌++◌, IfOk, OnOk, string_bytes};
ghost use Rattle.json_text.specs.Fault.{unknown_node, bad_field};
ghost use Rattle.shake.specs.Line as spec;
ghost use Rattle.shake.specs.Line.{Says, shown, fault_line, bad_script_line, not_core_line};
ghost use Rattle.shake.specs.Fault.{tree_text, minify_text, refusal_text};
ghost use Rattle.shake.specs.Ran.{Tells};

use json_text::TreeError;
use min_driver::MinifyError;
use run_module::{Field, RunError};
use shake_streams::{Sink, write_all};
use std::alloc::{AllocError, Global};

/// Says a line. A fault of the sink ends it, and changes no answer.
pub fn say<E: Sink>(err: &mut E, line: &str)
    ensures said { Says (λ l. l ≡ line.now) (E.written err.old) (E.written err.new) (E.faults err.old) (E.faults err.new) }
    ensures told { Tells (λ l. l ≡ line.now) (E.taken err.old) (E.taken err.new) }
    ensures later { E.faults err.old ≤ E.faults err.new }
{
    match write_all(err, line.as_bytes()) {
        Ok(()) => {}
        Err(_) => {}
    }
}

fn is_word_byte(byte: u8) -> bool
    ensures { result ≡ spec.is_word_byte byte }
{
    byte >= b'a' && byte <= b'z'
        || byte >= b'A' && byte <= b'Z'
        || byte >= b'0' && byte <= b'9'
        || byte == b'_'
}

fn is_continuation(byte: u8) -> bool
    ensures { result ≡ spec.is_continuation byte }
{
    byte >= 128 && byte < 192
}

fn push_shown_byte(line: &mut String, byte: u8) -> Result<(), AllocError>
    ensures { OnOk result (string_bytes line.new ≡ string_bytes line.old ++ spec.shown_byte byte) }
{
    if is_continuation(byte) {
        return Ok(());
    }
    if is_word_byte(byte) {
        line.push(char::from(byte))?;
        return Ok(());
    }
    line.push('?')?;
    Ok(())
}

// The kind as it is shown: each character that is no ASCII letter, digit or `_` as `?`.
fn push_shown(line: &mut String, kind: &str) -> Result<(), AllocError>
    ensures { OnOk result (string_bytes line.new ≡ string_bytes line.old ++ shown kind.now) }
{
    'bytes: for byte in kind.as_bytes() {
        push_shown_byte(line, *byte)?;
    }
    Ok(())
}

fn unknown_line(alloc: Global, kind: &str) -> Result<String, AllocError>
    ensures { IfOk result (λ s. string_bytes s ≡ fault_line (unknown_node kind.now)) }
{
    let mut line = String::from_str(alloc, "shake: unknown node ")?;
    push_shown(&mut line, kind)?;
    line.push('\n')?;
    Ok(line)
}

fn field_line(alloc: Global, kind: &str, field: &str) -> Result<String, AllocError>
    ensures { IfOk result (λ s. string_bytes s ≡ fault_line (bad_field kind.now field.now)) }
{
    format!(in alloc; "shake: bad field {field} in {kind}\n")
}

// The line of a program that isn't minified: both counts, or the rule and the place of its first break.
fn minify_text(alloc: Global, error: MinifyError) -> Result<String, AllocError>
    ensures { IfOk result (λ s. string_bytes s ≡ minify_text error) }
{
    match error {
        MinifyError::TooLarge { nodes, levels } => {
            format!(in alloc; "shake: too large: nodes {nodes} levels {levels}\n")
        }
        MinifyError::IllFormed { rule, place } => {
            format!(in alloc; "shake: ill formed: rule {rule} at {place}\n")
        }
        MinifyError::OutOfMemory => String::from_str(alloc, "shake: out of memory\n"),
    }
}

// The line of bytes that are no tree.
fn tree_text(alloc: Global, error: &TreeError) -> Result<String, AllocError>
    ensures { IfOk result (λ s. string_bytes s ≡ tree_text error.now) }
{
    match error {
        TreeError::Syntax => String::from_str(alloc, "shake: not JSON\n"),
        TreeError::UnknownNode { kind } => unknown_line(alloc, kind.as_str()),
        TreeError::BadField { kind, field } => field_line(alloc, kind, field),
        TreeError::NumberOutOfRange => String::from_str(alloc, "shake: number out of range\n"),
        TreeError::OutOfMemory => String::from_str(alloc, "shake: out of memory\n"),
    }
}

fn bad_script_text(alloc: Global, field: Field) -> Result<String, AllocError>
    ensures { IfOk result (λ s. string_bytes s ≡ bad_script_line field) }
{
    let name = field.name();
    format!(in alloc; "shake: bad script: {name}\n")
}

fn not_core_text(alloc: Global, place: u32) -> Result<String, AllocError>
    ensures { IfOk result (λ s. string_bytes s ≡ not_core_line place) }
{
    format!(in alloc; "shake: not core: place {place}\n")
}

/// The line that says why nothing is written for the bytes.
pub fn refusal_text(alloc: Global, error: &RunError) -> Result<String, AllocError>
    ensures { IfOk result (λ s. string_bytes s ≡ refusal_text error.now) }
{
    match error {
        RunError::Tree(error) => tree_text(alloc, error),
        RunError::Refused(error) => minify_text(alloc, *error),
        RunError::NotCore { place } => not_core_text(alloc, *place),
        RunError::Bad { field } => bad_script_text(alloc, *field),
        RunError::OutOfMemory => String::from_str(alloc, "shake: out of memory\n"),
    }
}
