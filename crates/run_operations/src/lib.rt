//! Operations of a run that may ask the host: reading and writing what places refer to, calls, `new`,
//! `in` and `instanceof`, and the other operators beside them; and what the host does.
//!
//! Each does in a `World` what the definition of its name says (`js_meaning`, `specs/Reference.antt`,
//! `specs/Expression.antt`, `specs/Host.antt`) and answers the plan that is left; `follows` says the same of whatever follows. A
//! call that the host makes is handed back (`Next::CallsBack`), and nothing is entered here.
#![tactic(auto)]

mod call;
mod host;
mod moves;
mod operator;
mod place;

pub use call::{call_value, construct_value};
pub use host::{consults, given, throws};
pub use moves::{consult, host_moves};
pub use operator::{binary_value, only_boolean, only_object};
pub use place::{get_place, put_given, put_place, used};
