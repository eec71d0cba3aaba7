// A source and a sink in memory, which fail at the calls that they were told to fail at.
ghost use Rattle.std.specs.Prelude.{◌≡◌, ◌↔◌, length, min, take, drop, Some, IfOk, IsErr, OnErr, MatchResult};
ghost use Rattle.std.specs.List.{Contains};
ghost use Rattle.shake_streams.specs.Moves.{Pulls, Pushes};

use crate::front::copy_front;
use crate::history::{History, Note};
use crate::traits::{Failed, Sink, Source};
use std::alloc::{AllocError, Global};
use std::marker::Model;

/// A source of bytes in memory. Contracts see it as a `SourceState`.
#[derive(Drop)]
pub struct MemSource {
    bytes: Vec<u8>,
    next: usize,
    failing: Vec<u64>,
    calls: u64,
    faults: u64,
    given: History,
}

impl Model for MemSource {
    ghost use Rattle.std.specs.Prelude.{◌≤◌, vec_len, drop};
    ghost use Rattle.shake_streams.specs.Memory.{SourceState};

    ghost Value = { SourceState };

    ghost view = { λ s. record {
      left = drop s.next s.bytes.items;
      failing = s.failing.items;
      calls = s.calls;
      faults = s.faults;
      given = s.given.past;
    } };

    ghost invariant = { λ s. s.next ≤ vec_len s.bytes };
}

impl MemSource {
    ghost use Rattle.shake_streams.specs.Memory.{new_source};

    /// A source of these bytes. `failing` has the numbers of the calls of `pull` that are to fail,
    /// where the first call is 1, and so 0 names none.
    pub fn new(alloc: Global, bytes: &[u8], failing: &[u64]) -> Result<Self, AllocError>
        ensures { IfOk result (λ s. s ≡ new_source bytes.now failing.now) }
    {
        Ok(MemSource {
            bytes: bytes.to_vec(alloc)?,
            next: 0,
            failing: failing.to_vec(alloc)?,
            calls: 0,
            faults: 0,
            given: History::new(),
        })
    }
}

impl Source for MemSource {
    ghost use Rattle.shake_streams.specs.Memory.{after_pull, after_failed_pull, next_count};

    ghost given = { λ s. s.given };

    ghost left = { λ s. Some s.left };

    ghost faults = { λ s. s.faults };

    fn pull(&mut self, into: &mut [u8]) -> Result<usize, Failed>
        ensures pulls { Pulls result into.old into.new (Some self.old.left) (Some self.new.left)
            self.old.faults self.new.faults self.old.given self.new.given }
        ensures fails { IsErr result ↔ Contains self.old.failing (next_count self.old.calls) }
        ensures count { IfOk result (λ n. n ≡ min (length into.old) (length self.old.left)) }
        ensures past { IfOk result (λ n. drop n into.new ≡ drop n into.old) }
        ensures untouched { OnErr result (into.new ≡ into.old) }
        ensures after { MatchResult result (λ n. self.new ≡ after_pull self.old n (length into.old) into.new)
            (λ _. self.new ≡ after_failed_pull self.old) }
    {
        self.calls = self.calls.saturating_add(1);
        if self.failing.contains(&self.calls) {
            self.faults = self.faults.saturating_add(1);
            self.given = self.given.then(&Note::Fault);
            return Err(Failed);
        }
        let count = copy_front(into, &self.bytes[self.next..]);
        self.next += count;
        self.given = self.given.then_pulled(into, count);
        Ok(count)
    }
}

/// A sink of bytes in memory, with room for a number of them. Contracts see it as a `SinkState`.
#[derive(Drop)]
pub struct MemSink {
    bytes: Vec<u8>,
    room: usize,
    failing: Vec<u64>,
    calls: u64,
    faults: u64,
    taken: History,
}

impl Model for MemSink {
    ghost use Rattle.std.specs.Prelude.{◌+◌, ◌≤◌, vec_len, vec_capacity};
    ghost use Rattle.shake_streams.specs.Memory.{SinkState};

    ghost Value = { SinkState };

    ghost view = { λ s. record {
      written = s.bytes.items;
      room = s.room;
      failing = s.failing.items;
      calls = s.calls;
      faults = s.faults;
      taken = s.taken.past;
    } };

    ghost invariant = { λ s. vec_len s.bytes + s.room ≤ vec_capacity s.bytes };
}

impl MemSink {
    ghost use Rattle.shake_streams.specs.Memory.{new_sink};

    /// A sink with room for so many bytes, which it takes from the allocator now. `failing` has the
    /// numbers of the calls of `push` that are to fail, where the first call is 1, and so 0 names
    /// none.
    pub fn new(alloc: Global, room: usize, failing: &[u64]) -> Result<Self, AllocError>
        ensures { IfOk result (λ s. s ≡ new_sink room failing.now) }
    {
        Ok(MemSink {
            bytes: Vec::with_capacity(alloc, room)?,
            room,
            failing: failing.to_vec(alloc)?,
            calls: 0,
            faults: 0,
            taken: History::new(),
        })
    }

    /// All that was written so far.
    pub fn written(&self) -> &[u8]
        ensures { result.now ≡ self.now.written }
    {
        self.bytes.as_slice()
    }
}

impl Sink for MemSink {
    ghost use Rattle.shake_streams.specs.Memory.{Refuses, after_push, after_failed_push};

    ghost taken = { λ s. s.taken };

    ghost written = { λ s. Some s.written };

    ghost faults = { λ s. s.faults };

    fn push(&mut self, piece: &[u8]) -> Result<usize, Failed>
        ensures pushes { Pushes result piece.now (Some self.old.written) (Some self.new.written)
            self.old.faults self.new.faults self.old.taken self.new.taken }
        ensures fails { IsErr result ↔ Refuses self.old piece.now }
        ensures count { IfOk result (λ n. n ≡ min (length piece.now) self.old.room) }
        ensures after { MatchResult result (λ n. self.new ≡ after_push self.old (take n piece.now))
            (λ _. self.new ≡ after_failed_push self.old) }
    {
        self.calls = self.calls.saturating_add(1);
        let is_full = self.room == 0 && !piece.is_empty();
        if is_full || self.failing.contains(&self.calls) {
            self.faults = self.faults.saturating_add(1);
            self.taken = self.taken.then(&Note::Fault);
            return Err(Failed);
        }
        let count = piece.len().min(self.room);
        self.bytes.extend_from_slice(&piece[..count]).unwrap();
        self.room -= count;
        self.taken = self.taken.then(&Note::Bytes(&piece[..count]));
        Ok(count)
    }
}
