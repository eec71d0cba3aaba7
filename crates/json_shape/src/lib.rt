//! Which trees the table of node types has, and that their texts are read back as them.
//!
//! Every node in memory is of one type, so that type alone doesn't say which child may stand where.
//! `specs/Shape.antt` says it, by the table: a tree fits where each node stands at a place of its
//! parent's row that takes it. `specs/Exact.antt` names the values whose text is theirs alone. `notes`: trees that differ
//! in spans and marks alone have one text, and are read back alike. The code
//! is empty: the contracts are laws of these definitions, which `json_read` and `json_write` stand on.
#![tactic(auto)]

mod law;
mod notes;

pub use law::{trees_are_read_back, trees_fit};
pub use notes::{notes_are_not_read, notes_are_not_written};
