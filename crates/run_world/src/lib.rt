//! The state of a run in memory, and the acts on it.
//!
//! A `World` is seen as the state and the events so far of `js_meaning` (`specs/World.antt`). Each act
//! here is one of the definitions: doing it in the world that was, and going on with anything, is going
//! on with what the act answered in the world that is (`at`).
#![tactic(auto)]

mod acts;
mod reference;
mod scope;
mod script;
mod seeing;
mod world;

pub use reference::{gives, unknown};
pub use world::{
    Call, Cell, Completion, Export, Foreign, Globals, Move, Moves, Named, Next, Place, Reply,
    Script, Stored, World,
};
