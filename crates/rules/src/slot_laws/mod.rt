//! Does each node of a program have the slot of its sort where it stands?
//!
//! A walk calls a hook by the slot of a node (min_traverse), which goes by what stands above it. In a tree that fits the table of
//! node types each list of statements has the slot of lists, each statement of an expression, each `if`, `try`, `while` and `for`, each
//! block, each labeled statement and each import that of statements, and each expression that of expressions, but for the kinds that a
//! chain, a directive or a method may hold (`specs/Slots/Had.antt`). So where a walk asked for no other pass, its hooks saw each of them.
//!
//! The code is empty: the function's contract is a law.
pub mod laws;
