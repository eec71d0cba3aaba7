//! What does each edit of a program owe, and what follows from it?
//!
//! `specs/Owed/Owed.antt` has a record for each shape: an item leaves its list, a node becomes another, or a part of it, or an
//! expression is rebuilt of its parts. Each case has one file of its name in `proofs`, which fills the record, and a line in
//! `proofs/Owed/Owed.antt`. Whatever follows goes by shape and names no case: `edits`, that programs stay sensible, that the table
//! of scopes stays exact, with shorter lists, and that the tree is lighter; `fits`, that the table of node types holds;
//! `runs`, that a core module does what it did where a node comes to a part of it; `tables` and `parts`, what tables ask of
//! places, and that an expression which is rebuilt owes enough. `merged`, the same of two imports that become one, which changes two
//! items of a list at once and so is of no such shape; `passed`, of an import and an export that become one. `refusals` are small programs from which no edits lead where they may not.
//!
//! The code is empty: each function's contract is a law.
pub mod edits;
pub mod fits;
pub mod merged;
pub mod parts;
pub mod passed;
pub mod refusals;
pub mod runs;
pub mod tables;
