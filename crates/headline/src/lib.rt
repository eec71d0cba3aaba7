//! Does what edits leave of a program do what the program did?
//!
//! `specs/Headline.antt` says it in one place: edits that are allowed lead from the program to what is left,
//! of a core module every run is kept, and no part of what is left is dead code. `promise` states that this holds of every
//! program that fits the table of node types and breaks no rule of form, where edits lead to one without dead code.
//!
//! `clean`: what dead code is stands in `specs/Clean.antt`, read off a tree by the bindings of its names, whatever its spans
//! and ids are. Who asks may keep what nobody uses, or names of imports; the headline keeps nothing.
//!
//! Two families of laws lead there. `kept_runs`: a step refines a core module with no premise but that both are sensible,
//! since what the law of steps asks of a name whose declaration goes holds wherever the scopes are clear. `edits`: edits
//! keep runs, each of which is a step there, or lets a node come to what a part of it does.
//!
//! The code is empty: each function's contract is a law.
#![tactic(auto)]

pub mod clean;
pub mod edits;
pub mod kept_runs;
pub mod lasting;
pub mod promise;
