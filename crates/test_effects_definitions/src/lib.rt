//! Worked expressions: is of each told what ECMA-262 says of it?
//!
//! `js_effects` is proved to answer by its definitions. Here the definitions themselves are computed on small expressions
//! (`specs/Expressions.antt`), by contracts that say what is wanted of each, told by hand from the standard: of which type
//! its value is, which value, whether it is true in a test, and whether it may have an effect.
#![tactic(auto)]

pub mod names;
pub mod numbers;
pub mod numerals;
pub mod objects;
pub mod operators;
