//! The program: what does each command write for the bytes that it reads?
//!
//! `dce` reads one program from a source, as ESTree JSON, refuses it where it is too large or breaks a rule of form,
//! takes out of it what does nothing, and writes what is left and a line of counts to a sink. `run` reads a core module
//! with a script of what its host does, and writes the module's run. The contract of `shake`, with the definitions of
//! `specs/Run.antt`, says for each answer exactly when it comes and what was written then; memory may be short at any
//! time. Beside what a source tells of bytes to come, it says with `specs/Ran.antt` which bytes the source gave in this
//! very run, that the answer has its cause in those, and what the sinks took: for every source and sink, the standard
//! streams too. No call of a stream comes behind one that failed. It stands on `shake_streams` (sources and sinks),
//! `json_read` and `json_write` (from bytes to trees and back), `min_driver` (the limits, the rules of form and the
//! pass) and `run_module` (runs).
#![tactic(auto)]

mod line;
mod output;
mod run;
mod status;

pub use form_check::{FormError, well_formed};
pub use js_scoping::Scoping;
pub use js_tree::{Program, Text};
pub use json_fits::fits;
pub use json_read::{TreeError, read_tree};
pub use json_write::write_tree;
pub use min_driver::{
    CompressOptions, CompressOptionsKeepNames, CompressOptionsUnused, Minifier, MinifierOptions,
    MinifierReturn, MinifyError, PropertyReadSideEffects, TreeShakeOptions,
};
pub use run::shake;
pub use shake_streams::{
    Failed, MemSink, MemSource, ReadAllError, Sink, Source, StdErr, StdSink, StdSource, SureSink,
    SureSource, read_all,
};
pub use status::Status;
