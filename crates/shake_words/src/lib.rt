//! Which words does the command line take, and what do they ask for?
//!
//! The command set is a value of `clap`: the program `shake`, which wants one of its commands, and
//! the flags of each command. `specs/Program.antt` has the same set in the terms of clap's stated
//! meaning, and `specs/Meaning.antt` says by that meaning alone which lists of words are accepted,
//! and which command and flags they ask for. The set stays within the class of which that meaning
//! is exact: one level of commands, flags, no argument that excludes another.
//!
//! - `parse` gives a command only for accepted words, and then the one that they ask for. It
//!   answers `Usage` only for words that aren't accepted. The program offers no help and no version,
//!   so a call for either is a word that it doesn't know.
//! - `takes_dce`, `takes_dce_with_tree_only`, `takes_run` and `refuses_help` are laws: whatever name the program
//!   is called by, these words are accepted and mean what they say, and calls for help are refused.
//!
//! A further command is a line in `program`, in `command_named`, in both their definitions, and a
//! variant of `Command`.
#![tactic(auto)]

mod answer;
mod law;
mod program;
mod read;

pub use answer::{Command, WordsError};
pub use law::{refuses_help, takes_dce, takes_dce_with_tree_only, takes_run};
pub use read::parse;
