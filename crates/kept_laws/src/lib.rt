//! Are the names that stay of a statement those that it declares by `var`?
//!
//! `kept_names` walks statements alone, by kinds. ECMA-262 says by VarDeclaredNames (8.2.6) which names a statement declares for
//! the function around it: js_meaning has that as `var_names`, by which an entry of a function or program goes, form_rules
//! as what is `declared` where `variables` are sought, by which the rules of form and of scopes go, and scope_counts as what is
//! `hoisted` in a layer, by which a table of scopes stays exact. `laws` states of each statement that fits the table of node types
//! that all of these are the same names in the same order, each with its symbol, and that the declaration which `KeepVar` makes of
//! them declares them by `var` and no others, fits the table where the statement does, breaks no rule of form that the statement
//! doesn't, and weighs no more: so it may stand where a statement goes that never runs.
//!
//! The code is empty: each function's contract is a law.
#![tactic(auto)]

pub mod laws;
