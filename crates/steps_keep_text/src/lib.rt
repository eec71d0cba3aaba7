//! Is the text of what edits leave of a program read as that?
//!
//! Whatever edits (`Edits` of steps/Allowed) are made of a program that fits the table of node types, in whatever order: they
//! leave no more nodes and no more levels of them (`size`), and bring no number and no name that is written as something else; so
//! what they leave is readable where the program's values are exact and the text keeps JSON's limit of nesting (`readable`). So the
//! text of what they leave of a program that was read is read as that (`texts`), and does what a core module does that they leave
//! (`runs`). JSON's limit is asked of what is left, and not of the program: of `(1 ? o.f : null)();` edits leave `(0, o.f)();`, whose
//! nodes stand no deeper, but whose text nests a level deeper, since a list of nodes is an array of its own. `examples` has small
//! programs with their sizes.
//!
//! All goes by the shape of an edit (`Cuts` of steps/Marked): a node leaves a list, a statement becomes empty, a part stands for the
//! whole, or an expression is rebuilt of its parts. So a further case of these shapes asks for nothing here, and a further way to
//! rebuild an expression (`Picks` of steps/Marked) for a line in `proofs/Picked.antt`.
//!
//! The code is empty: each function's contract is a law.
#![tactic(auto)]

pub mod examples;
mod readable;
mod runs;
mod size;
mod texts;

pub use readable::{edits_bring_no_respelled_values, edits_leave_readable_trees};
pub use runs::texts_of_edits_refine;
pub use size::edits_leave_no_larger;
pub use texts::texts_of_edits_are_read_back;
