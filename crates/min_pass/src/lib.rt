//! What is left of a tree without the empty statements of its lists?
//!
//! `specs/Pass.antt` says it, and `clear_program` leaves exactly that. What is asked of the place where a node stands
//! (`Around`, `specs/Around.antt`) is asked by edits too: in which row it stands, and whether a `with` statement or a class is around.
#![tactic(auto)]

mod around;
mod pass;

pub use around::{Around, Row};
pub use pass::clear_program;
