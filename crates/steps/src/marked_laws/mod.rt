//! Does a table stay true, but for what is marked, while a program is edited?
//!
//! A walk that edits a tree in place keeps one table of its scopes, symbols and references, and marks the ids of the references
//! that left since its lists were last pruned. `laws` states that such a table stays exact but for the marks (scope_counts), through
//! any list of edits (steps/Allowed), that edits bring in no names and leave less, that marks add up and are of what stood at the
//! places of edits, and that the table is exact again once the marked ids are out of its lists. `flags`, that what the flags of
//! its scopes tell of a program they tell of what is left of it (`specs/Marked/Flags.antt`): there a scope is known by the mark of its
//! node, since its number is that of no order any more. `uses`, what such a table tells of references and their bindings, and
//! `exports`, that no declaration is exported that wasn't. `decisions` puts them together: what a walk goes by
//! (`specs/Marked/Told.antt`) stays true, and by it what is unused may leave. `rows` are small programs, by computing.
//!
//! It stands on steps/Owed: `proofs/Marked/Local.antt` has the shapes of edits, with a line for each case, and all else goes by shape.
//! The code is empty: each function's contract is a law.
pub mod decisions;
pub mod exports;
pub mod flags;
pub mod laws;
pub mod rows;
pub mod uses;
