//! What does a walk carry that changes a tree: where it is, and the scoping that it edits?
//!
//! `TraverseScoping` holds a `scope_table::Scoping`, the scopes that the walk is in, and what `fresh_names` knows of names
//! that are taken. A contract sees it as the record of `specs/Traversed.antt`, and each call is an equation over it: a scope
//! that is added around nodes takes their outermost scopes (`specs/Below.antt`), a reference is listed under its symbol or its
//! name. Where memory is short nothing changes.
//! `BoundIdentifier` and `MaybeBoundIdentifier` are names with the symbols that they mean. Their factories (`factories`) each make
//! one reference and its node, and all say so by one record, `Makes` (`specs/Identifier.antt`).
#![tactic(auto)]

mod ancestors;
mod below;
mod factories;
mod identifier;
mod names;
mod scoping;

pub use ancestors::AncestorScopes;
pub use fresh_names::UidGenerator;
pub use identifier::{BoundIdentifier, MaybeBoundIdentifier};
pub use scoping::TraverseScoping;
