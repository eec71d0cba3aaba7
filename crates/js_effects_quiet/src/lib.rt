//! What does it do to run a silent expression? Nothing that anybody could see.
//!
//! `specs/Quiet.antt` says when a computation is quiet, over the definitions of runs (js_meaning) alone: from every
//! state it goes on without an event, having done nothing but allocate, or ends uncovered without an event.
//! `laws` states that what has no effects by the definition of silence (js_effects) is quiet, in every environment
//! in which the names that are marked as bound have bindings; and so is all that has no effects by the answers of a
//! context, where these are true (`specs/Acts.antt`), of which silence is a part. `rows` tries that definition.
//!
//! The code is empty: each function's contract is a law.
#![tactic(auto)]

pub mod laws;
pub mod rows;
