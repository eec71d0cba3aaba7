//! Which passes run over a program, and when do they end?
//!
//! `run_peephole_pass` is one walk that takes dead code out (min_statements), behind which the table's lists are pruned of what left
//! and the bits of direct eval read anew where such a call left. Before and behind it program and context are *between passes*
//! (`specs/Between.antt`): the table is exact for the program, its scopes' flags tell exactly what is exposed, and nothing is
//! noted of the next pass. A pass that asks for another made the program lighter, and one that asks for none left it as it was, without
//! dead code (`Clean` of headline). `run_passes` runs one after another until one asks for none. A program that the rules
//! leave as it is has no dead code, as far as that is computed on a tree (`laws`).
#![tactic(auto)]

pub mod laws;
mod passes;
mod shaken;

pub use passes::{PassOutcome, run_passes, run_peephole_pass};
pub use shaken::{Shaken, shake_program};
