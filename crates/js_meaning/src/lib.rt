//! What does a program do? The definitions of runs.
//!
//! Above everything stands `specs/Run.antt`: `run tree script bound` is the run of a module with a
//! host script, within so many entries: the events that the host sees, and how it ends.
//! `specs/Kept.antt` says when one tree keeps every run of another, and comes back. The rest is how one gets there,
//! in the order of `specs/Lib.antt`: values, traces, the state and its acts, showing, operators,
//! scopes, the host, references, nodes, expressions, statements, modules, and `specs/Meaning.antt`
//! with a line for each kind of node. Whatever has no line, or an outcome that isn't settled here, is
//! uncovered: nothing is said of what follows it. docs/MEANING.md tells all of it in words.
//!
//! It stands on the tree of js_syntax alone. The code is empty: each function's contract is a law of
//! these definitions, or a program with its run.
#![tactic(auto)]

pub mod examples;
pub mod laws;
