//! From bytes to the tree of a program.
//!
//! `read_tree` parses the bytes by `json_value` and builds the tree of `js_tree` from the value. Its
//! contract is `json_text`'s definition: it answers the tree that the bytes are read as, or the first
//! fault in reading order, or `Syntax` exactly where the bytes are no JSON; memory may be short at any
//! time. `walk` goes over the fields of a node as the table lists them, each whole with the nodes below
//! it, and then makes the node's kind: `owned` reads one field that is no node and keeps a copy of its text, and `kinds` does
//! so for each row of the table, in reading order, the first fault included.
#![tactic(auto)]

mod kinds;
mod owned;
mod program;
mod walk;

pub use json_text::TreeError;
pub use kinds::node_kind;
pub use program::{read_program, read_tree};
