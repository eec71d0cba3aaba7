//! Which text does a run have?
//!
//! `specs/Text.antt` gives each event, each value that the host sees and each ending as JSON, and the text of a run as
//! a line for each. `write_trace` writes exactly that text of what a run gave, token by token, by `json`'s writer. It
//! stands on what a run gives (`run_value`), and on what it is to append tokens to a writer (`json_write`).
#![tactic(auto)]

mod event;
mod exports;
mod field;
mod plain;
mod shown;
mod trace;

pub use trace::write_trace;
