//! Is a tree without the empty statements of its lists a tree of the table of node types again?
//!
//! It is, and the values of what is left are exact if those of the tree are (`Fits` and
//! `IsExact` of json_shape). What is known here of places in the table serves single edits too (steps/Owed).
//!
//! The code is empty: each function's contract is a law.
mod cleared;

pub use cleared::{cleared_trees_are_exact, cleared_trees_fit};
