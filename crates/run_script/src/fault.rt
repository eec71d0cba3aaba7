// Why JSON is no script.
ghost use Rattle.std.specs.Prelude.{◌≡◌};
ghost use Rattle.run_script.specs.Field.{field_name};
ghost use Rattle.run_script.specs.declared.fault.ScriptError.TheVariants.{OutOfMemory};

use std::alloc::{AllocError, AllocFailed};
use thiserror::Error;

/// A field of an input, which is `{"n":N,"program":TREE,"script":{"globals":[..],"moves":[..]}}`.
#[derive(Clone, Copy, Debug, PartialEq, Eq)]
pub enum Field {
    Program,
    Script,
    Globals,
    Moves,
    Bound,
}

impl Field {
    /// The name of the field.
    pub fn name(self) -> &'static str
        ensures { result.now ≡ field_name self }
    {
        match self {
            Field::Program => "program",
            Field::Script => "script",
            Field::Globals => "globals",
            Field::Moves => "moves",
            Field::Bound => "n",
        }
    }
}

/// Why JSON is no script.
#[derive(Clone, Copy, Debug, PartialEq, Eq, Error)]
pub enum ScriptError {
    /// The field is missing, or isn't as it must be.
    #[error("bad script")]
    Bad { field: Field },
    #[error("out of memory")]
    OutOfMemory,
}

impl From<AllocError> for ScriptError {
    ghost from_gives = { λ _ e. e ≡ OutOfMemory };

    fn from(_: AllocError) -> Self {
        ScriptError::OutOfMemory
    }
}

impl<T: Drop> From<AllocFailed<T>> for ScriptError {
    ghost from_gives = { λ _ e. e ≡ OutOfMemory };

    fn from(_: AllocFailed<T>) -> Self {
        ScriptError::OutOfMemory
    }
}
