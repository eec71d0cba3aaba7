//! Is the text of a tree that was read, read as that tree?
//!
//! `nesting`: the text of a tree that was read nests no deeper than what it was read from, but for one level where a number
//! is negative. `readable`: so a tree that was read is readable (`IsReadable` of json_shape) where each of its values is
//! written as what it is (`specs/Respelled.antt`). `signs`: where numbers are negative, the text is read as the tree with
//! unary minus on their magnitudes (`specs/Signs.antt`, and `signed` of js_meaning_near). `examples` has small modules with
//! what is written of them. That edits keep all this is told in `steps_keep_text`.
//!
//! The code is empty: each function's contract is a law.
#![tactic(auto)]

pub mod examples;
mod nesting;
mod readable;
mod signs;

pub use nesting::texts_nest_as_read;
pub use readable::{texts_are_read_back, what_was_read_is_readable};
pub use signs::{signs_are_written_alike, what_was_read_is_signable};
