//! Which scopes, bindings and references a tree has, and which binding each reference has.
//!
//! `specs/Context.antt` says what stands around a node: the layers of names, where a declaration
//! declares, and how a name is used (ECMA-262 9.1, 10.2.11, 13.15). `specs/Site.antt` walks over a tree
//! and lists its scopes, bindings and references in order of places, and `specs/Binding.antt` says which
//! binding each reference has. The code is the types that the definitions share with the crates that
//! compute them, and `rows`: its contracts are worked rows, by computing the definitions.
#![tactic(auto)]

mod layer;
pub mod rows;

pub use layer::{Layer, Part, Role};
