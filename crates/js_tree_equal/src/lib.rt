//! Whether two programs say the same: `content_eq`.
//!
//! Two programs are equal if their trees are, but for spans and ids (`bare` of `js_syntax`). The walk
//! goes over both programs at once, and compares two kinds with all that they carry, and then the
//! children pair by pair. It allocates nothing. `src/kind.rt` is generated from the table of nodes.
#![tactic(auto)]

mod kind;
mod text;
mod value;
mod walk;

pub use kind::same_kind;
pub use walk::content_eq;
