//! Whether a table of scopes, symbols and references matches a program.
//!
//! `scoping_matches` makes the table of the program anew, in time n log n, and compares it with the one that
//! is asked, entry by entry, where numbers are those that the nodes are marked with: after edits they need
//! not be in order nor without gaps. Its answer is exactly whether `Matches` (`specs/Matches.antt`) holds.
#![tactic(auto)]

mod answer;
mod items;
pub mod laws;
mod lists;
mod marks;
mod reference;
mod scope;
mod symbol;
mod unresolved;

pub use answer::scoping_matches;
