//! Is what is told of the value of an expression so in every run?
//!
//! `specs/Gives.antt` says what a computation gives, over the definitions of runs (js_meaning), and `specs/Told.antt` when a
//! value is as js_effects tells of its expression: of which type it is, which value, and whether it is true in a test. `laws`
//! states that it is, whatever the expression is, where what is told of names is true; an expression that throws, or of which
//! a run says nothing, gives none. Names that have constants aren't spoken of yet.
//!
//! The code is empty: each function's contract is a law.
#![tactic(auto)]

pub mod laws;
