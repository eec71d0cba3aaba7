//! What has a program that fits the table of node types and breaks no rule of form?
//!
//! Such a program is sensible (`specs/Fit/Sensible.antt`): it has all that the laws on scopes, changes, passes and steps ask of a
//! tree, and a core module all that the laws on runs ask besides. `programs` states both.
//!
//! The other laws say more of single facts, with fewer premises. `row_laws`: `var` is declared where the walk over variables
//! looks for it, and statements of expressions declare no names. `enclosed`: names are declared where the table lets them be
//! declared (`specs/Fit/Enclosed.antt`). `clear`: in a module that breaks no rule the scopes declare no names that clash, in the
//! words of runs (`specs/Fit/Clear.antt`).
//!
//! The code is empty: each function's contract is a law.
pub mod clear;
pub mod enclosed;
pub mod programs;
pub mod row_laws;
