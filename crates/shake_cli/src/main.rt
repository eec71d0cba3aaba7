//! The program `shake`: one run of the library's `shake` over the words of the command line and the
//! standard streams. Its exit status is the answer's code, and what stands behind it is said of the
//! bytes that the streams gave and took in the run itself. It stands on `shake` alone.
//!
//! Trusted, and to be read by eye: that `main` makes one source of the standard input and two sinks of
//! the standard output and error, passes them to one call and does nothing else with them; and what
//! the head of `shake_streams` names.
#![tactic(auto)]

ghost use Rattle.std.specs.Prelude.{◌≡◌, false, map, string_bytes};
ghost use Rattle.shake.specs.Run.{Shakes};
ghost use Rattle.shake.specs.Ran.{RanWithCode};
ghost use Rattle.shake_words.specs.Meaning.{accepts};

use shake::{Sink, Source, Status, StdErr, StdSink, StdSource, shake};
use std::alloc::Global;
use std::process::ExitCode;
use std::{env, io};

// The exit status of a run. It stays generic in each stream, so that nothing but calls of the streams
// can change what their histories have.
fn exit_status<S: Source, K: Sink, E: Sink>(
    alloc: Global,
    words: &[String],
    source: &mut S,
    out: &mut K,
    err: &mut E,
) -> u8
    ensures ok { result ≡ 0 → Shakes (map string_bytes words.now) (S.left source.old) (S.left source.new) (K.written out.old) (K.written out.new) }
    ensures run { RanWithCode (map string_bytes words.now) result (S.given source.old) (S.given source.new) (K.taken out.old) (K.taken out.new) (E.taken err.old) (E.taken err.new) }
    ensures usage { result ≡ 1 → accepts (map string_bytes words.now) ≡ false }
{
    shake(alloc, words, source, out, err).code()
}

fn main(rt: HostRuntime) -> ExitCode {
    let mut words = Vec::new(rt.alloc());
    // Words that are no UTF-8 are no words that the program accepts.
    if let Ok(given) = env::args(&rt) {
        for word in given {
            if words.push(word).is_err() {
                return ExitCode::from(Status::OutOfMemory.code());
            }
        }
    }
    let mut source = StdSource::new(rt.reader());
    let mut out = StdSink::new(io::writer(&rt));
    let mut err = StdErr::new(rt.stderr());
    ExitCode::from(exit_status(
        rt.alloc(),
        words.as_slice(),
        &mut source,
        &mut out,
        &mut err,
    ))
}
