// The standard streams of the runtime. This is the trusted edge: no contract can say what the system
// will give or take, so these tell no bytes to come, and note each answer as it comes. Their two
// methods are to be read by eye: each makes one call of the system, and notes what that answered.
ghost use Rattle.std.specs.Prelude.{◌≡◌, [], None};
ghost use Rattle.std.specs.Io.KnownBytes.{ReadConsumes, WriteAppends};
ghost use Rattle.shake_streams.specs.Moves.{Pulls, Pushes};

use crate::history::{History, Note};
use crate::traits::{Failed, Sink, Source};
use std::io::{Read, Write};
use std::rt::Stderr;

/// What reads, as a source: standard input for a runtime's `reader()`. Each pull is one read of the
/// system's, straight into the piece.
#[derive(Drop)]
pub struct StdSource<R: Read> {
    from: R,
    faults: u64,
    given: History,
}

impl<R: Read> StdSource<R> {
    /// The source that reads from here.
    pub fn new(from: R) -> Self
        ensures faults { ⟦<StdSource<R> as Source>⟧.faults result ≡ 0 }
        ensures given { ⟦<StdSource<R> as Source>⟧.given result ≡ [] }
    {
        StdSource {
            from,
            faults: 0,
            given: History::new(),
        }
    }
}

impl<R: Read> Source for StdSource<R> {
    ghost given = { λ s. s.given.past };

    ghost left = { λ _. None };

    ghost faults = { λ s. s.faults };

    fn pull(&mut self, into: &mut [u8]) -> Result<usize, Failed>
        ensures pulls { Pulls result into.old into.new None None self.old.faults self.new.faults
            self.old.given.past self.new.given.past }

        // Where the reader tells its bytes, those that are noted are the next of them.
        ensures reads { ReadConsumes (R.remaining self.old.from) (R.remaining self.new.from) result into.new }
    {
        let Ok(count) = self.from.read(into) else {
            self.faults = self.faults.saturating_add(1);
            self.given = self.given.then(&Note::Fault);
            return Err(Failed);
        };
        self.given = self.given.then_pulled(into, count);
        Ok(count)
    }
}

/// What writes, as a sink: standard output for `io::writer` of a runtime, standard error for its
/// `stderr()`. Each push is one write of the system's, and nothing is held back in a buffer.
#[derive(Drop)]
pub struct StdSink<W: Write> {
    to: W,
    faults: u64,
    taken: History,
}

/// Standard error, made by `StdErr::new(rt.stderr())`.
pub type StdErr = StdSink<Stderr>;

impl<W: Write> StdSink<W> {
    /// The sink that writes here.
    pub fn new(to: W) -> Self
        ensures faults { ⟦<StdSink<W> as Sink>⟧.faults result ≡ 0 }
        ensures taken { ⟦<StdSink<W> as Sink>⟧.taken result ≡ [] }
    {
        StdSink {
            to,
            faults: 0,
            taken: History::new(),
        }
    }
}

impl<W: Write> Sink for StdSink<W> {
    ghost taken = { λ s. s.taken.past };

    ghost written = { λ _. None };

    ghost faults = { λ s. s.faults };

    fn push(&mut self, piece: &[u8]) -> Result<usize, Failed>
        ensures pushes { Pushes result piece.now None None self.old.faults self.new.faults
            self.old.taken.past self.new.taken.past }

        // Where the writer tells its bytes, those that are noted are what it got.
        ensures writes { WriteAppends (W.contents self.old.to) (W.contents self.new.to) result piece.now }
    {
        match self.to.write(piece) {
            Ok(count) if count > 0 || piece.is_empty() => {
                self.taken = self.taken.then(&Note::Bytes(&piece[..count]));
                Ok(count)
            }
            _ => {
                self.faults = self.faults.saturating_add(1);
                self.taken = self.taken.then(&Note::Fault);
                Err(Failed)
            }
        }
    }
}
