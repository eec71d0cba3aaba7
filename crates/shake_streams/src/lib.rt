//! Where do bytes come from, and where do they go? This crate is the outside world as the program
//! sees it: a `Source` of bytes, a `Sink` for bytes, and the two loops that everything above uses,
//! `read_all` and `write_all`. It stands on no other crate of the repository.
//!
//! - A source tells, for proofs alone, what its calls have given so far, a sink what they have taken:
//!   a history of bytes, ends and faults in their order, which every source and sink has. Some tell as
//!   well which bytes are left, or were written. Each counts its faults. A call answers `Failed` only
//!   where that count rose or has reached the last value of its type, and then nothing was taken or
//!   sent.
//! - `MemSource` and `MemSink` hold their bytes in memory and fail at the calls that they were told
//!   to fail at, and at no others. `SureSource` and `SureSink` never fail.
//! - `StdSource`, `StdSink` and `StdErr` are the standard streams. They tell nothing of bytes to come,
//!   and note in their histories what each call answered.
//! - `read_all` gives all the bytes that were left, within a limit, or says why it doesn't.
//!   `write_all` sends a whole text, or a front of it and then `Failed`. Neither makes a call behind
//!   one that failed.
//!
//! Trusted, and to be read by eye: the bodies of the standard streams, some fifteen lines each, which
//! make one read or one write and note its answer (where the reader or writer tells its bytes, that
//! is proved; one that always fails unread is not refused, and leads to no false success); that no
//! proof by hand but those of `History::new` and `History::then` speaks of a history, which owns
//! nothing; and std, the C library and the system: that a read hands over what is there, and that what
//! a write accepted arrives.
#![tactic(auto)]

mod front;
mod history;
mod memory;
mod read;
mod standard;
mod sure;
mod traits;
mod write;

pub use history::{History, Note};
pub use memory::{MemSink, MemSource};
pub use read::{ReadAllError, read_all};
pub use standard::{StdErr, StdSink, StdSource};
pub use sure::{SureSink, SureSource};
pub use traits::{Failed, Sink, Source};
pub use write::write_all;
