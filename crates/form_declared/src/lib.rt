//! What is found of names and places in rows of nodes: what a scope declares, what a module exports, the
//! private names of a class, and the nodes of a row that break a rule by where they stand.
//!
//! Each function answers the list that a definition of `form_rules` is, in order of places.
#![tactic(auto)]

mod declared;
mod exported;
mod place;
mod private;
mod row;
mod rows;

pub use declared::add_declared;
pub use exported::{exported_among, locals_among};
pub use private::privates_among;
pub use row::{constructors, defaults, early_rests, wrong_declarators};
pub use rows::{behind, first_below, is_absent};
