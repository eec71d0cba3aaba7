//! Worked runs: do the definitions compute the traces that ECMA-262 gives?
//!
//! `run_core` is proved to run by the definitions (`js_meaning`), and `test_runs` runs it on a table of programs,
//! whose traces were written by hand from the standard. Some of its rows stand in `specs/Worked.antt` once more:
//! here the definitions themselves compute the run, by the contracts of `computed`.
#![tactic(auto)]

pub mod computed;
