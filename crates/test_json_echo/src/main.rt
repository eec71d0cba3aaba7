//! A program that parses JSON by `serde_json` and prints it, and does nothing else: what `shake` is
//! measured against.
#![tactic(auto)]

ghost use Rattle.std.specs.Prelude.{IfSome, string_bytes};
ghost use Rattle.test_json_echo.specs.Echo.{IsEcho};

use serde_json::Value;
use shake_streams::{StdSink, StdSource, read_all, write_all};
use std::alloc::Global;
use std::io;
use std::process::ExitCode;

// The text of the bytes' value, where they have one.
fn echo(alloc: Global, bytes: Vec<u8>) -> Option<String>
    ensures { IfSome result (λ s. IsEcho bytes.items (string_bytes s)) }
{
    let Ok(value) = Value::from_slice(alloc, bytes.as_slice()) else {
        return None;
    };
    drop(bytes);
    value.to_string(alloc).ok()
}

fn main(rt: HostRuntime) -> ExitCode {
    let mut source = StdSource::new(rt.reader());
    let Ok(bytes) = read_all(rt.alloc(), &mut source, 268_435_456) else {
        return ExitCode::from(2);
    };
    let Some(text) = echo(rt.alloc(), bytes) else {
        return ExitCode::from(4);
    };
    let mut out = StdSink::new(io::writer(&rt));
    match write_all(&mut out, text.as_bytes()) {
        Ok(()) => ExitCode::from(0),
        Err(_) => ExitCode::from(8),
    }
}
