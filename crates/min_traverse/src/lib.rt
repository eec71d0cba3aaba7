//! What does a walk do to a program that edits it in place, if each of its hooks edits one node as it owes?
//!
//! `Traverse` has two hooks for each of fourteen sorts of nodes, one before what lies below a node and one behind. Which a node has is
//! told by its kind and by what stands above it: an outer slot, whether it is an expression, and an inner slot (`specs/Slot.antt`); the
//! hooks at the entry are called from the outer slot to the inner, those behind it from the inner to the outer, each slot read anew. A
//! walker names for contracts alone which single edits it makes, what it asks of the whole program beside that the context is true
//! (`IsTrue` of min_context), and what a hook leaves known that asks for no other pass.
//!
//! The contract of a hook (`NodeMoves`, `specs/Moves.antt`) speaks of every program around the node: what stands after is a list of
//! edits from what stood before, what is asked holds again, exactly what left is marked, and the program is lighter if another pass
//! is asked for. The theorem, the contract of `traverse_root`, is the same of the whole walk, and beside: if no other pass is asked for,
//! the program is as it was, and the walk was a visit of every node in order of places (`specs/Visits.antt`).
//!
//! A walker says by `has` which hooks it has, and no other is called: so a visit says of a node without a hook that walker and
//! context stay, and of one with a hook what the walker names. The body that a hook has by default answers an error, so that it need
//! show nothing of the walker; only a walker that says it has a hook which it doesn't write meets it.
//!
//! `laws`: edits compose; a hook does as it owes where its call does what a lawful rule says, of which the exact clause is one
//! record (`Does`, `specs/Lawful.antt`); rules may be tried in turn. That edits leave the context true (`Stays`) is owed once, by
//! whoever names the edits. It stands on min_context for the context and the places, and on scope_counts for what stands around.
#![tactic(auto)]

mod dispatch;
pub mod laws;
mod program;
mod slot;
mod traverse;
mod walk;

pub use program::traverse_mut_with_ctx;
pub use slot::{Hook, Inner, Middle, Outer, inner_slot, middle_slot, outer_slot};
pub use traverse::Traverse;
pub use walk::traverse_root;
