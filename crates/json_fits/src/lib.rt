//! Whether a program fits the table of node types: `fits`.
//!
//! A program that was read from its text fits. One that was made or changed in memory may not, since every node is of one
//! type, and what is promised of runs is promised of programs that fit. The table says which rows may make a kind of node
//! (`specs/Rows.antt`), where such a row may stand, and what stands below it, so that one walk finds out
//! (`specs/Fitting.antt`); that this is the definition `Fits` is proved once.
#![tactic(auto)]

mod parts;
mod rows;
mod walk;

pub use walk::fits;
