//! Which numbers below a capacity are in a set: of symbols, of references, of nodes?
//!
//! `SymbolSet` is a finite set of numbers, however it is kept. A contract sees it as a Boolean for each
//! number below its capacity (`specs/Numbers.antt`), and each call is an equation over these. Past the
//! capacity nothing is in a set and nothing changes it. `ones` gives the numbers of any such set in rising
//! order. `VecSet` keeps a vector of Booleans. `laws` says the same in words of sets: what is in a set after
//! a call, that no other number is touched, and that `ones` gives exactly what is in it. It stands on no
//! other crate of the repository.
#![tactic(auto)]

pub mod laws;
mod ones;
mod set;
mod vec_set;

pub use ones::Ones;
pub use set::SymbolSet;
pub use vec_set::VecSet;
