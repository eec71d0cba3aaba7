//! What does a walk that edits a program know, and what does an edit do to that?
//!
//! `MinifierTraverseCtx` is the context of a walk: the table of scopes, symbols and references, what left since its lists were pruned, the
//! options, and where the walk is. Contracts see it as one record, `Seen` (`specs/Seen.antt`), and a place as the nodes above with the
//! scopes around (`specs/Place.antt`), read off what stands around in the tree. What a call that edits does to it is said by `Leaves` and
//! `Edited` (`specs/Edited.antt`): exactly what left is marked, and all else is the same.
#![tactic(auto)]

mod ancestor;
mod ancestry;
mod collector;
mod completing;
mod context;
mod edits;
mod generating;
mod marks;
mod naming;
mod replacing;
mod reusable;
mod shortcuts;
mod state;

pub use ancestor::{Above, Ancestor, Parent, Within};
pub use ancestry::Ancestors;
pub use collector::{DroppedSubtreeCollector, a_walk_marks_what_it_meets};
pub use context::{CurrentScopes, MinifierTraverseCtx};
pub use reusable::ReusableMinifierTraverseCtx;
pub use state::{BodyFrame, CompressionMode, MinifierState};
