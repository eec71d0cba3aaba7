//! Which script, and how many entries of a run, does JSON ask for?
//!
//! `specs/Script.antt` says of a JSON value which globals, which moves of the host and which bound it holds, or which
//! of its fields is the first at fault; `read_script` answers exactly that, and what it makes is what a run is given
//! (`run_world`). It stands on `serde_json`'s values.
#![tactic(auto)]

mod fault;
mod list;
mod moves;
mod read;
mod value;

pub use fault::{Field, ScriptError};
pub use read::{Input, read_script};
