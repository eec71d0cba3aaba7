//! Expressions in a run: the first step of each, and how they go on.
//!
//! `enter_value`, `enter_place`, `enter_collection` and `enter_entry` are the lines of `does`
//! (`js_meaning`, `specs/Meaning.antt`) for nodes that are asked for a value, for what they refer to, for
//! the values of a list, and for the value of a property. The functions that resume take a frame and what it is applied to,
//! act on the world as the frame's meaning says (`run_plan`, `specs/Frame.antt`), and answer the plan of what is left.
#![tactic(auto)]

mod expression;
mod fields;
mod literal;
mod member;
mod operand;
mod operator;
mod other;
mod place;
mod target;
mod values;

pub use expression::enter_value;
pub use operand::resume_operand;
pub use other::{enter_collection, enter_entry, enter_place};
pub use place::resume_place;
pub use target::resume_target;
pub use values::resume_values;
