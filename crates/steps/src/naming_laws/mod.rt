//! Is a name that no reference has as its binding one that nothing refers to?
//!
//! A dead code remover asks two definitions about names. Its table is that of scope_rules: scopes have numbers, and a
//! reference's binding is that of the innermost layer around it which declares its name. Its steps (steps) ask the tree
//! itself: whether something in the scope refers to the name, and the names of a scope are those that its entry declares
//! when a program is run (js_meaning). Here both are proved to agree where declarations stand where the grammar lets them
//! stand, which is decided on the tree (`specs/Naming/Placed.antt`): first that the entry of each scope declares all names that
//! scope_rules has there (`specs/Naming/Agreeing.antt`), and then that a function or variable that nothing has as its binding, and
//! that isn't exported, is unused wherever it stands (`specs/Naming/Standing.antt`).
//!
//! The code is empty: each function's contract is a law.
pub mod laws;
pub mod rows;
