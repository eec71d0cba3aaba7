//! The names of blocks, loops, functions and modules: what an entry declares, and which values are there
//! from the start.
//!
//! Each function is one of the definitions (`js_meaning`, `specs/Scope.antt`, `specs/Module.antt`): it
//! acts on the world, and answers the environment with which it goes on, or `None` where nothing is said
//! of what follows (`specs/Entered.antt`).
#![tactic(auto)]

mod enter;
mod exports;

pub use enter::{
    copy_loop_names, declare_loop_names, enter_block, enter_catch, enter_function, enter_module,
    make_function,
};
pub use exports::export_names;
