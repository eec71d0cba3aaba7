// A source and a sink that never fail.
ghost use Rattle.std.specs.Prelude.{◌≡◌, [], length, min, drop, Some, None, IfOk};
ghost use Rattle.shake_streams.specs.Moves.{Pulls, Pushes};

use crate::front::copy_front;
use crate::history::{History, Note};
use crate::traits::{Failed, Sink, Source};
use std::alloc::{AllocError, Global};
use std::marker::Model;

/// A source of bytes in memory that never fails. Contracts see it as a `SureState`.
#[derive(Drop)]
pub struct SureSource {
    bytes: Vec<u8>,
    next: usize,
    given: History,
}

impl Model for SureSource {
    ghost use Rattle.std.specs.Prelude.{◌≤◌, vec_len, drop};
    ghost use Rattle.shake_streams.specs.Sure.{SureState};

    ghost Value = { SureState };

    ghost view = { λ s. record { left = drop s.next s.bytes.items; given = s.given.past } };

    ghost invariant = { λ s. s.next ≤ vec_len s.bytes };
}

impl SureSource {
    ghost use Rattle.shake_streams.specs.Sure.{new_sure};

    /// A source of these bytes.
    pub fn new(alloc: Global, bytes: &[u8]) -> Result<Self, AllocError>
        ensures { IfOk result (λ s. s ≡ new_sure bytes.now) }
    {
        Ok(SureSource {
            bytes: bytes.to_vec(alloc)?,
            next: 0,
            given: History::new(),
        })
    }
}

impl Source for SureSource {
    ghost given = { λ s. s.given };

    ghost left = { λ s. Some s.left };

    ghost faults = { λ _. 0 };

    fn pull(&mut self, into: &mut [u8]) -> Result<usize, Failed>
        ensures pulls { Pulls result into.old into.new (Some self.old.left) (Some self.new.left) 0 0
            self.old.given self.new.given }
        ensures count { result ≡ Ok (min (length into.old) (length self.old.left)) }
        ensures past { IfOk result (λ n. drop n into.new ≡ drop n into.old) }
    {
        let count = copy_front(into, &self.bytes[self.next..]);
        self.next += count;
        self.given = self.given.then_pulled(into, count);
        Ok(count)
    }
}

/// A sink that takes every byte, keeps none and never fails. It tells nothing of what was written.
#[derive(Drop)]
pub struct SureSink {
    taken: History,
}

impl SureSink {
    /// A sink that has taken nothing so far.
    pub fn new() -> Self
        ensures { ⟦<SureSink as Sink>⟧.taken result ≡ [] }
    {
        SureSink {
            taken: History::new(),
        }
    }
}

impl Sink for SureSink {
    ghost taken = { λ s. s.taken.past };

    ghost written = { λ _. None };

    ghost faults = { λ _. 0 };

    fn push(&mut self, piece: &[u8]) -> Result<usize, Failed>
        ensures pushes { Pushes result piece.now None None 0 0 self.old.taken.past self.new.taken.past }
        ensures count { result ≡ Ok (length piece.now) }
    {
        self.taken = self.taken.then(&Note::Bytes(piece));
        Ok(piece.len())
    }
}
