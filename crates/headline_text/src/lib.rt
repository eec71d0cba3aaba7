//! Does the text of what edits leave of a program do what the program did?
//!
//! `texts`: whatever edits (`Edits` of steps/Allowed) lead from a program that was read and breaks no rule of form to what is
//! left, its text is read as that, without spans and ids and with unary minus on their magnitudes in the place of negative
//! numbers, if it keeps JSON's limit of nesting, and keeps the runs of a core module (`TextHeadline` of `specs/Written.antt`). It
//! puts `steps_keep_text`, on texts, and `headline`, on runs, together. `names`: what is read has the table of the tree with
//! negative numbers.
//!
//! The code is empty: each function's contract is a law.
#![tactic(auto)]

mod names;
mod texts;

pub use names::signs_resolve_alike;
pub use texts::texts_of_edits_keep_runs;
