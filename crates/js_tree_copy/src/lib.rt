//! Copies of programs: `try_clone`.
//!
//! A copy equals the program that it was made of, spans and ids included: the contracts see both as the
//! tree of `js_syntax`, and say that these are one. Making a copy allocates, so it may fail for want of
//! memory, and it fails in no other way. `src/kind.rt` is generated from the table of nodes.
#![tactic(auto)]

mod kind;
mod text;
mod value;
mod walk;

pub use kind::clone_kind;
pub use walk::{clone_node, try_clone};
