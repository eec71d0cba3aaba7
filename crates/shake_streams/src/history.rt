// What the calls of a stream have answered so far. It takes no memory, and its methods do nothing when
// they run: only proofs read it.
ghost use Rattle.std.specs.Prelude.{◌≡◌, ◌≤◌, [], length, Ok};
ghost use Rattle.std.specs.Borrow.{ftrue};
ghost use Rattle.shake_streams.specs.Past.{Past, with_pull};

use std::marker::Model;

/// The history of a stream: each byte that went by, each end that was told and each call that failed,
/// in their order. A call for a piece of no bytes leaves nothing in it.
///
/// It owns nothing, so that a proof by hand could set it to anything. The two methods here are the
/// only ones that have one; all others leave it as it is, or add what a call answered.
#[derive(Drop)]
pub struct History {
    pub ghost past: { Past },
}

impl Model for History {
    ghost also_owns = { λ _. ftrue };
}

/// One answer of a stream: bytes that went by, the end, or a fault.
#[derive(Clone, Copy, Drop)]
pub enum Note<'a> {
    Bytes(&'a [u8]),
    End,
    Fault,
}

impl History {
    ghost use Rattle.shake_streams.specs.Noted.{noted};

    /// That of a stream of which nothing was asked.
    pub fn new() -> History
        ensures { result.past ≡ [] }
    {
        History {}
    }

    /// This one, and behind it an answer.
    #[inline(always)]
    pub fn then(&self, _note: &Note<'_>) -> History
        ensures { result.past ≡ noted self.now.past _note.now }
    {
        History {}
    }

    /// This one, and behind it a pull that put so many bytes at the front of the piece.
    pub(crate) fn then_pulled(&self, piece: &[u8], count: usize) -> History
        requires { count ≤ length piece.now }
        ensures { result.past ≡ with_pull self.now.past (Ok count) (length piece.now) piece.now }
    {
        if count == 0 && !piece.is_empty() {
            return self.then(&Note::End);
        }
        self.then(&Note::Bytes(&piece[..count]))
    }
}
