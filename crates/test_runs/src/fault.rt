// Why a row has no trace.
use std::alloc::{AllocError, AllocFailed};

/// What is printed in the place of a trace.
#[derive(Clone, Copy)]
pub(crate) struct Fault(pub(crate) &'static str);

const OUT_OF_MEMORY: Fault = Fault("out of memory");

impl From<AllocError> for Fault {
    fn from(_: AllocError) -> Fault {
        OUT_OF_MEMORY
    }
}

impl<T: Drop> From<AllocFailed<T>> for Fault {
    fn from(_: AllocFailed<T>) -> Fault {
        OUT_OF_MEMORY
    }
}
