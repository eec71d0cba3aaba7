//! What does a pass note of symbols and references while it edits a program?
//!
//! `PassChanges` notes what a pass did: which references left the tree, whether a direct call of `eval` did, and whether
//! another pass is asked for. Its marks have room for every reference from the start, so that no call takes memory. It stands on
//! `symbol_sets`; contracts see it as one record (`specs/Changes.antt`), and each call as an equation over that.
#![tactic(auto)]

mod changes;

pub use changes::PassChanges;
