//! What may a dead code remover do to a program, of any source type?
//!
//! One edit at one place, whose conditions are read off the tree as it is then, by the bindings of its references. Each
//! case has a file of its name in `specs` and a line in one of two lists (`specs/Allowed/Edits.antt`): an item leaves its list, or a
//! node becomes another in its place. `Edits` are such edits one after the other, from program to program.
//!
//! The code is empty: each function's contract is a law.
pub mod laws;
pub mod rows;
pub mod silent_calls;
pub mod untaken_names;
pub mod values;
