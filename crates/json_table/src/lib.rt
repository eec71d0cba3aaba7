//! The table of node types, as code looks things up in it.
//!
//! `js_syntax` states the table once, as definitions. Here are its classes, rows and fields as plain
//! data: which row a type of ESTree is where a class of node is wanted, ESTree's type of a row, and
//! the fields of a row in reading order. The contracts say that each answer is the table's own.
#![tactic(auto)]

mod field;
mod row;
mod stand;
mod table;
mod wanted;

pub use field::{Check, Field, Hint, Kept, Keys, List, Sort, Unread, Words};
pub use row::Row;
pub use stand::row_of;
pub use wanted::Wanted;
