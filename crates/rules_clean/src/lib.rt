//! Do the rules of the pass take out dead code alone?
//!
//! Of a program without dead code (`Clean` of headline, read off the tree alone) they take nothing out: `laws` states it by
//! whatever is known of the program, since each node that goes is a part that is dead, or holds a declarator that is
//! (`proofs/Dying.antt`), and each expression or `if` that comes to its parts is dead code (`proofs/Deciding.antt`). Where it is known
//! exactly they leave no dead code either (rules/DeadCode, rules/Expressions), so that they change nothing exactly where there
//! is none. `rows` are two small programs that show why what is known has to be so, and known exactly.
//!
//! The code is empty: each function's contract is a law.
#![tactic(auto)]

pub mod laws;
pub mod rows;
