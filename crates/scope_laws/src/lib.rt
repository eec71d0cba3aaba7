//! What holds of scopes, bindings and references, whatever tree they stand in.
//!
//! Passes change a tree that is marked with the numbers of a table, and change the table along with it.
//! What they rest on stands here, in `laws`: that marking changes marks alone, what an exact table says
//! (`specs/Exact.antt`), and which declarations and references stand at a place of a tree
//! (`specs/Place.antt`). What a change does to a table, scope_counts says by counts. The code is empty:
//! each function's contract is a law of the definitions of scope_rules, or in `rows` a small program
//! that they are tried on.
#![tactic(auto)]

pub mod laws;
pub mod rows;
