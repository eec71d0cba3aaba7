// Why nothing is run.
ghost use Rattle.std.specs.Prelude.{◌≡◌};
ghost use Rattle.run_module.specs.declared.error.RunError.TheVariants.{OutOfMemory};

use json_text::TreeError;
use min_driver::MinifyError;
use run_script::Field;
use std::alloc::{AllocError, AllocFailed};
use thiserror::Error;

/// Why bytes ask for no run.
#[derive(Debug, Drop, Error)]
pub enum RunError {
    /// The bytes are no JSON, or what stands in the place of the program is no tree.
    #[error("no tree")]
    Tree(TreeError),
    /// The program is too large, or breaks a rule of form.
    #[error("no program")]
    Refused(MinifyError),
    /// The program is no module of the core of the language: the least place of a node that isn't, or 0 where it is no module.
    #[error("not core")]
    NotCore { place: u32 },
    /// The field is missing, or isn't as it must be.
    #[error("bad script")]
    Bad { field: Field },
    #[error("out of memory")]
    OutOfMemory,
}

impl From<AllocError> for RunError {
    ghost from_gives = { λ _ e. e ≡ OutOfMemory };

    fn from(_: AllocError) -> Self {
        RunError::OutOfMemory
    }
}

impl<T: Drop> From<AllocFailed<T>> for RunError {
    ghost from_gives = { λ _ e. e ≡ OutOfMemory };

    fn from(_: AllocFailed<T>) -> Self {
        RunError::OutOfMemory
    }
}
