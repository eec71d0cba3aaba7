//! Statements and declarations in a run: the first step of each, and how they go on.
//!
//! `enter_statement` and kin are the lines of `does` (`js_meaning`, `specs/Meaning.antt`) for the kinds
//! of nodes that stand as statements, declarations, parameters and cases. The functions that resume take a frame of
//! statements, calls or modules and what it is applied to, act on the world as the frame's meaning says (`run_plan`,
//! `specs/Frame.antt`), and answer the plan of what is left.
#![tactic(auto)]

mod branch;
mod completion;
mod declare;
mod loops;
mod normal;
mod parts;
mod run;
mod simple;
mod statement;
mod turn;
mod value;

pub use branch::{enter_cases, test_case};
pub use completion::resume_completion;
pub use declare::{enter_catch_clause, enter_declarator, take_name};
pub use normal::resume_normal;
pub use run::load_all;
pub use statement::enter_statement;
pub use value::resume_statement;
