//! What does a conditional come to, of whose test it is known whether it is true?
//!
//! `specs/Tells.antt` says when a test tells: nobody can tell that it ran, and the value that it gives is as is known of it. `laws`
//! states, over the definitions of runs, that a conditional on such a test comes to the branch that is taken, an `if` likewise,
//! and a logical expression to its right side where that is evaluated, else to its left side (ECMA-262 13.13, 13.14, 14.6); and
//! that each expression without effects is such a test of which its form tells enough. A literal is one, as are `![]`,
//! `typeof -1` and `function () {}`. Of a test that acts its form may tell that each value is so that it gives (`GivesOnly`), as of
//! `x && false`: then an `if` comes to the same whatever stands in the branch that isn't taken.
//!
//! The code is empty: each function's contract is a law.
#![tactic(auto)]

pub mod laws;
