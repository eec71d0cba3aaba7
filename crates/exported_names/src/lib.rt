//! Which symbols do exported declarations declare, and which references have a symbol?
//!
//! `exported_symbols` and `bound_references` answer it of a program and its table, a Boolean for each symbol and for each
//! reference (`specs/Exported.antt`, `specs/Answers.antt`). Where the table has the scopes of declarations, each symbol is marked
//! that an exported declaration of the program's own scope declares (16.2.3), and no other: parameters, and names of functions
//! and classes that are expressions, are of scopes further in. `laws` states that a new table has them (`specs/Placed.antt`), and
//! that what is answered by it is what the pass over dead code is to know (rules/DeadCode). `rows` are small programs with what
//! they export, by computing.
#![tactic(auto)]

mod bound;
mod exported;
pub mod laws;
pub mod rows;

pub use bound::bound_references;
pub use exported::exported_symbols;
