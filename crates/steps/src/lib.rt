//! What may a dead code remover do to a program, and what stays as it was through each edit?
//!
//! `Allowed` has the edits, for programs of any source type: an item leaves its list, a node becomes another in its place, or two imports
//! of a module become one. Each has a file of its name that says when, read off the tree as it is then. What each of them owes, and what
//! follows for programs that fit the table of node types, is in `Owed`, by shape. What goes on through any list of them, with a table of scopes that is kept and marked
//! meanwhile, is in `Marked`.
//!
//! These stand on the others. Here are the steps of core modules: `Goes` has one constructor for each case of what may leave, and
//! `Step` says what happens to the row (`specs/Steps.antt`); what each asks is read off the tree alone: which names are declared
//! around, whether anything in the scope refers to a name, whether an expression is silent (`specs/Names.antt`). `laws` states what
//! holds of every step, `rows` tries the definitions of names. That a step changes nothing in a run is in `KeepRuns`; that what is left
//! breaks no rule of form, in `KeepForm`, and that it fits the table of node types, in `KeepTable`. `Naming` states that what a table of
//! scopes tells of a name and what runs need of it agree, `Fit`, what a program has that fits the table and breaks no rule.
//!
//! Each is a folder of definitions and proofs, with a module of laws. The code is empty: each function's contract is a law.
#![tactic(auto)]

pub mod allowed_laws;
pub mod fit_laws;
pub mod keep_form;
pub mod keep_runs;
pub mod keep_table;
pub mod laws;
pub mod marked_laws;
pub mod naming_laws;
pub mod owed_laws;
pub mod rows;
