//! What a run computes now, and what follows: the parts of the machine that runs programs.
//!
//! A `Frame` says what is done with the completion of what is computed now, and a `Plan` is what is
//! computed next and the frames that follow it. `specs/Frame.antt` says what each of them means in the
//! words of `js_meaning`: `applies` for a frame, `onto` for frames one above the other, `controls` for
//! what is computed now, `plans` for a plan. `parts` and `stack` make plans from their parts; `lists` and `loops` do what the
//! nodes of a row do, one after another: the plan of the first, and a frame for the others. Each contract says what the plan
//! means, for any way of entering. No state is looked at here.
#![tactic(auto)]

mod ask;
mod first;
mod frame;
mod held;
pub mod laws;
mod lists;
mod loops;
mod parts;
mod plan;
mod stack;

pub use ask::{Ask, Wanted};
pub use first::{Front, asks_first, first_ask, first_field};
pub use frame::{
    AfterCompletion, AfterNormal, AfterOperand, AfterPlace, AfterStatement, AfterTarget,
    AfterValues, Frame, Use,
};
pub use held::{Labels, NodeRef, Nodes};
pub use lists::{collect_values, declare_each, find_case, give_each, run_each, run_in_turn};
pub use loops::test_loop;
pub use parts::{
    asks, asks_maybe, completes, enters, goes, replies, then_completion, then_normal, then_operand,
    then_place, then_statement, then_target, then_values, uncovered,
};
pub use plan::{Control, Loop, Plan, Task};
pub use stack::{
    discard, discard_all, discard_ask, discard_completion, discard_control, push_plan, take_nearest,
};
