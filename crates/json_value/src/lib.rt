//! Which JSON value do bytes hold, with its texts borrowed from them?
//!
//! `Value` keeps texts where they stand in the input, or in the room of the reader where they have escapes, and an
//! object's members in their order. What it stands for is a value of `serde_json` (`specs/View.antt`): of a key that comes
//! twice the last value counts. `read_value` answers exactly what `serde_json`'s definition of reading gives, within its
//! limit of nesting, so whatever is defined over that definition holds of it. It stands on `json`, whose reader hands out
//! tokens, and on `fast_float` and `serde_json` for numbers.
#![tactic(auto)]

mod error;
mod number;
mod read;
mod value;

pub use error::ValueError;
pub use json::Scratch;
pub use read::read_value;
pub use value::Value;
