//! By which number are names told apart, before their texts are compared?
//!
//! `digest` makes a number of a text, and of one that it begins with, as that of a scope (`specs/Digest.antt`). A map of names has
//! it in front of their texts in its keys, so that most comparisons are of two numbers, and texts are compared where these are the
//! same: names that were chosen so cost what texts cost, and no more. Equal texts have equal digests, so that what is found
//! doesn't change (`proofs/Apart.antt`). It stands on no other crate of the repository.
#![tactic(auto)]

mod text;

pub use text::digest;
