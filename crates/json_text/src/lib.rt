//! Trees as JSON: which tree some bytes are, and which text a tree has.
//!
//! The definitions stand in `specs/`, over the table of node types of `js_syntax` and over the
//! meaning of JSON that `serde_json` states: `Reading` gives for a JSON value its tree or the first
//! fault in reading order, `Text` the compact text of a tree, each object's keys in byte order.
//! `json_read` and `json_write` are proved against them. Here is besides the type of the faults, and
//! what is proved of the definitions themselves: that the counter of levels in `Reading` never runs
//! out on a value that JSON's own limit of nesting lets in, so it refuses nothing.
#![tactic(auto)]

mod error;
mod law;

pub use error::TreeError;
pub use law::levels_suffice;
