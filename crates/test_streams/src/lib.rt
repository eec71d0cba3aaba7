//! Do the streams, and the words of the command line, answer while there is memory, and what do they answer?
//!
//! Contracts say what an answer is, and none that one comes, nor what the system answers. So the sources
//! and sinks of `shake_streams` and its loops are called here, and lists of words are parsed, as clap's documentation
//! says that they are taken.
#![tactic(auto)]

#[cfg(test)]
mod tests;
