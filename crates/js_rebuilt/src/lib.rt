//! What is an expression that is rebuilt of its parts?
//!
//! `specs/Rebuilt.antt` is a relation between two rows of nodes: some of the parts of the one, whole and in their order, stand in the
//! other below new nodes of operations, which make no scope, declare nothing, refer to nothing and call nothing. `rows`:
//! expressions that are rebuilt so, and some that aren't. What follows for tables of scopes and for the rules of form other
//! crates say.
//!
//! The code is empty: each function's contract is a law.
#![tactic(auto)]

pub mod rows;
