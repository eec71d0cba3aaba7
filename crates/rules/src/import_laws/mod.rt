//! Which names of imports does the pass over dead code take out, and why may it?
//!
//! `specs/Imports/Rules.antt` has the rule: of an import the names leave that nobody uses, and the import itself stays, even with an empty
//! list, so that its module is loaded where it was (ECMA-262 16.2.1.3). `laws` states that by what is to be known of the program (`Knows`
//! of rules/DeadCode) they leave by edits that a dead code remover may make (steps/Allowed), one after the other, that what is left weighs
//! less and has the same references and calls, and that a program of which none goes (`specs/Imports/Quiet.antt`) has no name of an import
//! that is dead code, as it is read off the tree alone. `rows` are small programs and what is left of their imports, by computing.
//!
//! `specs/Imports/Repeated.antt` has the rule on imports without names: behind another request of its module in its list such an import
//! leaves. `laws` states that of it too, and that none leaves a program exactly where none stands there that may.
//!
//! `specs/Imports/Merged.antt` has the rule on imports of one module in a program without a direct call of `eval`: each goes into the first
//! one before it that can take its names. `merged` states that so they come together by edits, that less is left then, with the same
//! references and calls, and that none goes exactly where no two may become one.
//!
//! `specs/Imports/Passed.antt` has the rule on imports in such a program that a later export of names alone lists, where nothing else refers to
//! their names: each becomes an export from its module, in its place, and the other export goes. `passed` states that so they do by edits,
//! that less is left then and which references go, and that none does exactly where none may.
//!
//! The code is empty: each function's contract is a law.
pub mod laws;
pub mod merged;
pub mod passed;
pub mod rows;
