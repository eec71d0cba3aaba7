//! What do edits of a table keep, in words of scopes and references?
//!
//! Each editing call of `Scoping` is an equation between tables (`scope_table/specs/Editing.antt`). Here are
//! laws of these equations. `parents`: where from each scope the parents end at a scope without one, they do
//! so after a scope is added and after one is put into another that is outside of it, and only then; and the
//! ancestors that are read of such a table are all of them, each once. `pruning`: what leaves the lists is
//! what is in the set, and a table whose lists were exact but for marked references is exact once these are
//! taken out. `refreshing`: from the program that a table was made of, the bit of direct eval is refreshed to
//! what it is.
//!
//! The code is empty: each function's contract is a law.
#![tactic(auto)]

pub mod parents;
pub mod pruning;
pub mod refreshing;
