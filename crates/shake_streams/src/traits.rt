// A source and a sink of bytes, each of which may fail.
ghost use Rattle.std.specs.Prelude.{ℕ, List, Option};
ghost use Rattle.shake_streams.specs.Past.{Past};
ghost use Rattle.shake_streams.specs.Moves.{Pulls, Pushes};

/// A call of a source or a sink failed: nothing was taken, and nothing was sent.
#[derive(Clone, Copy, Debug, PartialEq, Eq)]
pub struct Failed;

/// Where bytes come from.
pub trait Source {
    /// What its calls have given so far: each byte, each end that was told and each fault, in their order.
    ghost given: { Self → Past };

    /// The bytes still to come, where they are known.
    ghost left: { Self → Option (List ℕ) };

    /// How often it has failed. A count that has reached 2^64 - 1 rises no more.
    ghost faults: { Self → ℕ };

    /// Puts the next bytes at the front of the piece, and answers how many. No bytes for a piece
    /// that has room say that the source is at its end.
    fn pull(&mut self, into: &mut [u8]) -> Result<usize, Failed>
        ensures { Pulls result into.old into.new (left self.old) (left self.new)
            (faults self.old) (faults self.new) (given self.old) (given self.new) };
}

/// Where bytes go.
pub trait Sink {
    /// What its calls have taken so far: each byte and each fault, in their order.
    ghost taken: { Self → Past };

    /// The bytes that went out, where they are known.
    ghost written: { Self → Option (List ℕ) };

    /// How often it has failed. A count that has reached 2^64 - 1 rises no more.
    ghost faults: { Self → ℕ };

    /// Sends a front of the piece, and answers how many bytes it has. A sink that takes nothing of
    /// a piece that has bytes has failed.
    fn push(&mut self, piece: &[u8]) -> Result<usize, Failed>
        ensures { Pushes result piece.now (written self.old) (written self.new)
            (faults self.old) (faults self.new) (taken self.old) (taken self.new) };
}
