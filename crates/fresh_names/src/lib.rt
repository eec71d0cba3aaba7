//! Which names does a program not have yet?
//!
//! `UidGenerator` is made of the names of a `scope_table::Scoping`, told further ones, and answers fresh ones; a contract sees
//! it as a list of the greatest taken name for each base (`specs/Uid.antt`). `laws` says without it that what `create` answers
//! is none of the names that the scoping has, none that it was told, and none that it answered before, whatever was
//! called. `rows` are worked rows, computed.
#![tactic(auto)]

pub mod laws;
pub mod rows;
mod uid;

pub use uid::UidGenerator;
