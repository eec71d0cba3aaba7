// What the words ask for, and why they ask for nothing.
ghost use Rattle.std.specs.Prelude.{◌≡◌};
ghost use Rattle.shake_words.specs.declared.answer.WordsError.TheVariants.{OutOfMemory};

use std::alloc::AllocError;
use thiserror::Error;

/// A command of the program, with its flags.
#[derive(Clone, Copy, Debug, PartialEq, Eq)]
pub enum Command {
    /// Dead code elimination. `tree_only` leaves the line of counts out of the output.
    Dce { tree_only: bool },
    /// The run of a module over a script.
    Run,
}

/// Why words give no command.
#[derive(Clone, Copy, Debug, PartialEq, Eq, Error)]
pub enum WordsError {
    /// The words aren't accepted.
    #[error("usage: shake dce [--tree-only], or shake run")]
    Usage,
    #[error("out of memory")]
    OutOfMemory,
}

impl From<AllocError> for WordsError {
    ghost from_gives = { λ _ e. e ≡ OutOfMemory };

    fn from(_: AllocError) -> Self {
        WordsError::OutOfMemory
    }
}
