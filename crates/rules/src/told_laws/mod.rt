//! Do the flags of a table tell only what is so?
//!
//! That names are exposed where they are, steps/Marked shows; here is the other direction (`ToldOnly` of rules/DeadCode, in two parts:
//! `specs/Told/Parts.antt`). `tables` states it of new tables, and that pruned lists don't matter. `edits` states of a tree that fits the
//! table of node types that no edit makes code strict or a name less shared, so that all but the bit of direct eval stays as it is told;
//! and that the bit does where no call of `eval` leaves: none does with what leaves a list as nothing uses it, but one may with a silent
//! statement, which may hold a function, with a branch that isn't taken (`rows`), and with what stands behind a jump. `refreshing` states
//! that then, once the bit is read anew (scope_table), the flags tell only what is so again, and as much as they did; for this the scopes
//! stand in one another as their nodes do (`specs/Told/Nesting.antt`), as those of a new table do, and also behind edits.
//!
//! The code is empty: each function's contract is a law.
pub mod edits;
pub mod refreshing;
pub mod rows;
pub mod tables;
