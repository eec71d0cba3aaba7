//! When does what is left of a program break no rule of form?
//!
//! `specs/KeepForm/Sheds.antt` is a relation between a tree and what is left of it: items of lists of statements
//! leave, and so do declarators of such items and names of imports, statements of an expression become
//! empty, and so does an `if` that declares nothing, a declaration of one name becomes a statement of its
//! value, a part of a node stands for the node, and an expression is rebuilt of its parts
//! (`specs/KeepForm/Part.antt`). `law` states that the twelve rules of form hold of what is left if they hold
//! of the tree. `laws`: every tree that fits the table of node types is laid out as a program is
//! (`specs/KeepForm/Layout.antt`), and so is what is left of it.
//!
//! The code is empty: each function's contract is a law.
mod law;
pub mod laws;

pub use law::form_stays;
