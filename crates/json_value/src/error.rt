// Why bytes hold no value.
ghost use Rattle.std.specs.Prelude.{◌≡◌};
ghost use Rattle.json_value.specs.declared.error.ValueError.{ValueError as meant};
ghost use Rattle.json_value.specs.declared.error.ValueError.TheVariants.{OutOfMemory, Syntax};

use json::Invalid;
use std::alloc::{AllocError, AllocFailed};

/// Why bytes hold no value.
#[derive(Clone, Copy, Debug, PartialEq, Eq)]
pub enum ValueError {
    /// The bytes aren't UTF-8, or are no JSON that nests at most 127 arrays and objects.
    Syntax,
    OutOfMemory,
}

impl From<AllocError> for ValueError {
    ghost from_gives = { λ _ e. e ≡ OutOfMemory };

    fn from(_: AllocError) -> Self {
        ValueError::OutOfMemory
    }
}

impl<T: Drop> From<AllocFailed<T>> for ValueError {
    ghost from_gives = { λ _ e. e ≡ OutOfMemory };

    fn from(_: AllocFailed<T>) -> Self {
        ValueError::OutOfMemory
    }
}

impl From<Invalid> for ValueError {
    ghost from_gives = { λ _ e. e ≡ Syntax };

    fn from(_: Invalid) -> Self {
        ValueError::Syntax
    }
}
