//! The table of a tree's scopes, symbols and references.
//!
//! `table` makes it of what a walk has found, in time n log n: `scope_names` numbers the symbols and
//! finds the symbol of each use, and what is said of a symbol, a scope or a name that nothing declares is
//! put to the item of its number. Contracts see a `Scoping` as the record of `scope_rules`
//! (`specs/Table.antt`), and `table` promises exactly the one that is defined there. What scopes, symbols and references
//! are stands in sets of bits: `ScopeFlags`, `SymbolFlags`, `ReferenceFlags`.
//!
//! `editing` and `editing_references` change a table one step at a time. Each call is a function of the record
//! (`specs/Editing.antt`), and one that lacks memory leaves the table as it was. What such steps keep is said in
//! `scope_edits`. `refreshing` gives the scopes the bit of direct eval as a program has it
//! (`specs/Refreshing.antt`).
#![tactic(auto)]

mod editing;
mod editing_references;
mod flags;
mod making;
mod reading;
mod reference;
mod refreshing;
mod scope;
mod scoping;
mod symbol;
mod unresolved;

pub use flags::{ReferenceFlags, ScopeFlags, SymbolFlags};
pub use reference::Reference;
pub use scope::Scope;
pub use scoping::{Scoped, Scoping, table};
pub use symbol::{Redeclaration, Symbol};
pub use unresolved::Unresolved;
