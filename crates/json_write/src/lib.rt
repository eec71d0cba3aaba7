//! The text of a program's tree: compact JSON, each object's keys in byte order.
//!
//! It stands on what is written of each node (`json_entries`), on which text a tree has (`json_text`),
//! and on `json`, a writer of tokens into one buffer, which escapes texts. Each function promises the
//! tokens that it appends, so nothing is built between the tree and its text.
//!
//! `write_tree` promises the exact text, and that it is read as the same tree where the tree is one that the
//! table has and its values are exact (`json_shape`).
#![tactic(auto)]

mod field;
mod name;
mod node;
mod scalar;
mod write;

pub use write::write_tree;
