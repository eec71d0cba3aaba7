//! Which nodes does the pass over dead code take out or make statements of values, and why may it?
//!
//! `specs/DeadCode/Rules.antt` has the rules: what they ask of the program and of the place, and what they leave of a list of statements,
//! of a statement and of a declaration. `specs/DeadCode/Knows.antt` says what is to be true of the program then: a table that is exact but for marks, and
//! whose flags tell, is enough (steps/Marked). `laws` states that this stays true through edits, that by it what the rules take
//! out comes by edits that a dead code remover may make (steps/Allowed), one node after the other, and that what is left weighs
//! less, and is the same where nothing goes. `quiet` states that a program of which they take nothing out has no part that is dead
//! code, as it is read off the tree alone, where nothing is known that isn't so (`specs/DeadCode/Quiet.antt`). `rows` are small programs
//! and what is left of them, by computing.
//!
//! It also states of the context of a walk (min_context) that what it tells is true of a program that a new table marked, and stays
//! true through such edits, once exactly what left is marked: what a walker of min_traverse owes of its edits.
//!
//! The code is empty: each function's contract is a law.
pub mod laws;
pub mod quiet;
pub mod rows;
