//! Which programs does the headline refuse in the place of a program?
//!
//! `Headline` (headline) says of two programs that the second is the first without its dead code. `rows`
//! tries it on small modules: the empty program, a program without a call that stood there, one without a
//! function that is called, one without a loop that never ends, one with a call that has got a receiver, and for each sort of
//! dead code one in which such is left are refused.
//! Each is refused by what runs show, or by dead code that is left. Programs that lost what other code than
//! their references may use are refused by the list of edits, by laws of `steps/Owed`.
//!
//! What dead code is (`Clean`) is tried too: of each sort a small program has some, others that look like it have none, and of
//! one of either it is told whether the rules leave it as it is.
//!
//! The code is empty: each function's contract is computed.
#![tactic(auto)]

pub mod rows;
