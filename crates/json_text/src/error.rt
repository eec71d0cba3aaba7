// Why bytes are no tree.
ghost use Rattle.std.specs.Prelude.{◌≡◌};
ghost use Rattle.json_text.specs.declared.error.TreeError.TheVariants.{OutOfMemory};

use std::alloc::{AllocError, AllocFailed};
use thiserror::Error;

/// Why bytes are no tree that the table of node types has.
#[derive(Debug, Drop, Error)]
pub enum TreeError {
    /// The bytes aren't UTF-8, or are no JSON that nests at most 127 arrays and objects.
    #[error("not JSON")]
    Syntax,
    /// A node's type isn't in the table. `kind` is the text of its field `type`.
    #[error("unknown node {kind}")]
    UnknownNode {
        kind: String,
    },
    /// A field lacks, or holds what may not stand there. `kind` is the type of the node, and empty
    /// where it has none.
    #[error("bad field {field} in {kind}")]
    BadField {
        kind: &'static str,
        field: &'static str,
    },
    /// A literal is no whole number within 2^53 - 1 in magnitude.
    #[error("number out of range")]
    NumberOutOfRange,
    #[error("out of memory")]
    OutOfMemory,
}

impl From<AllocError> for TreeError {
    ghost from_gives = { λ _ e. e ≡ OutOfMemory };

    fn from(_: AllocError) -> Self {
        TreeError::OutOfMemory
    }
}

impl<T: Drop> From<AllocFailed<T>> for TreeError {
    ghost from_gives = { λ _ e. e ≡ OutOfMemory };

    fn from(_: AllocFailed<T>) -> Self {
        TreeError::OutOfMemory
    }
}
