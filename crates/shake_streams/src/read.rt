// Reading a source to its end.
ghost use Rattle.std.specs.Prelude.{◌≡◌, ◌+◌, ◌-◌, ◌≤◌, IfOk, IfErr, length, min};
ghost use Rattle.shake_streams.specs.Reading.{Ends, GivesAll, GivesNot, LeavesRest, ReadsNot};
ghost use Rattle.shake_streams.specs.declared.read.ReadAllError.TheVariants.{OutOfMemory};

use crate::traits::Source;
use std::alloc::{AllocError, Global};
use thiserror::Error;

/// Why a source was not read to its end.
#[derive(Clone, Copy, Debug, PartialEq, Eq, Error)]
pub enum ReadAllError {
    #[error("the input could not be read")]
    Fault,
    #[error("the input is longer than the limit")]
    TooLong,
    #[error("out of memory")]
    OutOfMemory,
}

impl From<AllocError> for ReadAllError {
    ghost from_gives = { λ _ e. e ≡ OutOfMemory };

    fn from(_: AllocError) -> Self {
        ReadAllError::OutOfMemory
    }
}

// How many bytes a call of the source is asked for at most.
const PIECE: usize = 65_536;

/// How many bytes to ask for next, so that no more than one byte past the limit is read.
fn next_size(had: usize, limit: u64) -> usize
    requires { had ≤ limit }
    ensures { result ≡ min PIECE (limit - had + 1) }
{
    let more = limit - had as u64;
    if more < PIECE as u64 {
        more as usize + 1
    } else {
        PIECE
    }
}

/// All the bytes that the source has, of which there are at most `limit`. It reads one byte past the
/// limit where there is one, and makes no call behind one that failed or told the end.
pub fn read_all<S: Source>(
    alloc: Global,
    source: &mut S,
    limit: u64,
) -> Result<Vec<u8>, ReadAllError>
    ensures ok { IfOk result (λ v. Ends (S.left source.old) (S.left source.new) v.items) }
    ensures gave { IfOk result (λ v. GivesAll (S.given source.old) (S.given source.new) v.items) }
    ensures within { IfOk result (λ v. length v.items ≤ limit) }
    ensures err { IfErr result
        (λ e. ReadsNot e (S.left source.old) limit (S.faults source.old) (S.faults source.new)) }
    ensures gave_not { IfErr result (λ e. GivesNot e (S.given source.old) (S.given source.new) limit) }
    ensures rest { LeavesRest (S.left source.old) (S.left source.new) (limit + 1) }
    ensures later { S.faults source.old ≤ S.faults source.new }
{
    let mut bytes = Vec::new(alloc);
    let mut piece = [0u8; PIECE];
    'pieces: while bytes.len() as u64 <= limit {
        let size = next_size(bytes.len(), limit);
        let Ok(n) = source.pull(&mut piece[..size]) else {
            return Err(ReadAllError::Fault);
        };
        if n == 0 {
            return Ok(bytes);
        }
        bytes.extend_from_slice(&piece[..n])?;
    }
    Err(ReadAllError::TooLong)
}
