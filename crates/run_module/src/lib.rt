//! Which run do bytes ask for, and what does it show?
//!
//! Bytes ask for a run by JSON: a program, a script of what the host does, and how many entries there may be
//! (`specs/Running.antt`). `run_text` reads the three, runs the program and gives the text of the run: a line of JSON
//! for each event, and one for the ending. It refuses what is no tree, too large or ill formed, what is no module of
//! the core of the language, for which alone runs are defined, and what is no script, each with its cause
//! (`specs/Answer.antt`). The run is the one that the promises on shaken programs speak of. It stands on `run_core`
//! (the run), `run_script` (what the host does), `run_text` (the text) and `run_covered` (the core).
#![tactic(auto)]

mod error;
mod law;
mod module;

pub use error::RunError;
pub use law::{core_modules_are_covered, covered_modules_are_core};
pub use module::run_text;
pub use run_script::Field;
