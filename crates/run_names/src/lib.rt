//! Which names a piece of a program declares, and what a module asks for and exports.
//!
//! Each function answers exactly the list that a definition of `js_meaning` is (`specs/Scope.antt`,
//! `specs/Module.antt` there), in the order that it has. Nothing is run here.
#![tactic(auto)]

mod declared;
mod module;
mod names;

pub use declared::{
    Decl, Way, function_decls, lexical, module_decls, named_so, own_name, waiting_names,
};
pub use module::{Entry, entries, requests, stars};
pub use names::{behind, bound_names, first_name, first_of, module_text, var_names};
