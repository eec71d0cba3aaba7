//! The scopes, symbols and references of a program: which name each declaration binds, and which binding
//! each reference has.
//!
//! `build` makes the table of a program and marks its nodes with their numbers, and the table is exact then
//! (`scope_laws/specs/Exact.antt`); to do so again changes nothing (`laws`). Its reading calls are those of `Scoping`,
//! and `scoping_matches` answers whether a table still says what the rules say at every node
//! (`scope_match/specs/Matches.antt`).
#![tactic(auto)]

pub mod laws;
pub mod rows;
mod table;

pub use scope_match::scoping_matches;
pub use scope_table::{
    Redeclaration, Reference, ReferenceFlags, Scope, ScopeFlags, Scoping, Symbol, SymbolFlags,
    Unresolved,
};
pub use table::build;
