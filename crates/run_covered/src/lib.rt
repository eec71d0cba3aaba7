//! Of which nodes do runs say nothing, and where is the first?
//!
//! Runs are defined for modules of the core of the language: which kinds of nodes belong to it stands in
//! `js_syntax` (`specs/Facts.antt`). `is_core` answers it for a kind; `first_outside` gives the place of the first node
//! of a program that doesn't belong to it, which is the least, or 0 for another source type (`specs/Covered.antt`).
#![tactic(auto)]

mod kind;
mod law;
mod program;

pub use kind::is_core;
pub use law::{none_is_left_out, the_first_is_the_least};
pub use program::first_outside;
