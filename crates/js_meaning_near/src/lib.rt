//! When do two modules run alike, though their trees differ? The law of contexts: near modules do.
//!
//! `specs/Near.antt` says which rows of nodes are near: the new one is the old one, but for changes that
//! no run shows; one constructor for all kinds of nodes but functions, one each for what may change. What
//! is known of a name where code stands is its status (`specs/Names.antt`); so that something declared may
//! go, it is enough that its name is dead or unread where its scope is entered. `specs/Fit.antt` and
//! `specs/Avoid.antt` say which rows stay as they are under such names, `specs/Once.antt` what a change at one place is.
//! Silence comes in as a premise on runs (`specs/Quiet.antt`).
//!
//! For rewritings to come: `specs/Purpose.antt` tells of each expression what it is evaluated for, and of which nobody takes
//! the value. A node may come to another (`ComesTo`, `specs/Local.antt`) as far as is asked for at its place; so an expression
//! may come out bare (`specs/Bare.antt`). A statement may come to the parts of its expression that act (`SameEffects`,
//! `specs/Wasted.antt`), and so may an expression whose value nobody takes (`LessWaste`, `OneSided`, `Shorter`). What stands behind
//! a jump in its list never runs (`Unreached`): a statement there that declares nothing may leave. Rows may change
//! at any number of places by what is known of a name (`specs/Rewritten.antt`, `specs/Known.antt`). A name that is `loose` says
//! that the new module may make fewer entries: calls of a function that does nothing but give a value may leave, and
//! `specs/Bodies.antt` reads off a function's code that it does no more. One that is `owing` says that the old module may make
//! twice as many: so it comes back, where one such call leaves (`specs/Gone.antt`). And a module may declare its names in another
//! order (`specs/Reordered.antt`), as where an import takes the names of another.
//!
//! `laws` has what is proved: a near module refines the old one (js_meaning's `Refined`), so it keeps its runs,
//! and the way back. `notes`: runs don't see the notes of nodes, their spans and ids. `signs`: nor whether a negative number
//! is a literal or unary minus on its magnitude. `examples` has what the laws give
//! for some modules. The proof puts two runs side by side (`proofs/Worlds.antt`, `proofs/Relations.antt`): cells and
//! objects of one with those of the other. It stands on js_meaning's definitions alone. The code is empty.
#![tactic(auto)]

pub mod examples;
pub mod laws;
pub mod notes;
pub mod signs;
