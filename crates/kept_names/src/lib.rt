//! Which names stay of a statement that goes?
//!
//! `specs/Kept.antt` says which: those that `var` declares in it, outside of functions and classes. `kept_names` finds them,
//! and `KeepVar` makes a declaration of them, without initialisers.
#![tactic(auto)]

mod find;
mod keep;

pub use find::kept_names;
pub use keep::KeepVar;
