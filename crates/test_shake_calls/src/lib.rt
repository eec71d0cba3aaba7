//! Does the library call answer at the limit of levels, where there is memory?
//!
//! Contracts say what an answer is, and none that one comes. What the calls answer for a program that is text is told
//! in the rows of `test_shake`; here are trees of a thousand levels, which are made in code, since no JSON within its
//! limits gives them.
#![tactic(auto)]

#[cfg(test)]
mod tests;
