//! Which nodes does the pass over dead code take out or change, and why may it?
//!
//! `DeadCode` has what a rule owes, and the rules on items of lists of statements; `Imports` has those on imports, `Expressions` those on
//! expressions and on statements that come to a part of theirs. Each rule is a definition of what it leaves of a tree by what is to be
//! known of the program; laws state that it comes there by edits that a dead code remover may make (`Allowed` of steps), one node after the
//! other, and that a program of which the rules take nothing has no dead code.
//!
//! The others state what lasts behind rules: `Told`, that the flags of a table tell only what is so; `Export`, that the exports of a
//! program stay; `Slots`, that each node has the slot of its sort where it stands, so that a walk's hooks saw each.
//!
//! The code is empty: each function's contract is a law.
#![tactic(auto)]

pub mod dead_code;
pub mod export_laws;
pub mod expression_laws;
pub mod import_laws;
pub mod slot_laws;
pub mod told_laws;
