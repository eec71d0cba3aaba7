//! The run of a program with a script and a bound: its events, and how it ends.
//!
//! `run` is the definition of that name (`js_meaning`, `specs/Run.antt`), whatever the program: a `Script` has the globals at
//! the start and the host's moves, a `Trace` the events and the ending. It may
//! fail only for want of memory, which is also its answer past 2^64 steps. A run goes step by step: what
//! is computed now is entered (`enter_node`, `enter_task`, `enter_program`), or its completion is taken by the nearest
//! frame (`resume_frame`).
#![tactic(auto)]

mod entry;
mod frames;
mod machine;
mod node;
mod program;
mod sort;
mod task;

pub use entry::enter_program;
pub use frames::resume_frame;
pub use node::enter_node;
pub use program::run;
pub use run_value::{Act, Ending, Event, Events, Given, Plain, Trace};
pub use run_world::{Globals, Move, Moves, Script};
pub use task::enter_task;
