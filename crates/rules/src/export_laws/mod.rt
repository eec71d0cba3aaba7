//! Which exports does a program keep through edits?
//!
//! All of them, by their marks. `kept` states that edits (steps/Allowed) lose no declaration of a program's own scope that it exports
//! (ECMA-262 16.2.3), so that a list of exported symbols that is right before them is right behind them; and, with `exports` of
//! steps/Marked, which has the other way, that what they leave exports the same symbols. `rows` are small programs.
//!
//! What leaves declares nothing in the program's own scope but a name that no export is of (`proofs/Export/Going.antt`), and the rest stays
//! below what it stood below (`proofs/Export/Staying.antt`). A further case of an edit asks for one in `proofs/Export/Edited.antt`, which
//! is a line where a part stands for the whole or an expression is rebuilt. The code is empty: each function's contract is a law.
pub mod kept;
pub mod rows;
