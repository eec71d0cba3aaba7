//! Which imports leave a list of statements, since their modules are asked for before, and which become exports?
//!
//! Those without names, by the rule of rules/Imports (`specs/Repeated.antt`): `drop_repeated` takes out of a list what the rule takes
//! out of it, exactly, and answers whether that is anything. A list that has no import without names is looked through once, and no memory
//! is taken. For another one a set of the modules that were asked for so far says of each item whether it stays, and then the list closes
//! up in one go: n log n steps in the number of its items. Where nothing leaves, and where memory is short, nothing is touched.
//!
//! `merge_imports` lets imports of one module come together (`specs/Merged.antt` there). An import whose names a later export alone lists
//! becomes an export from its module, and that export leaves (`specs/Passed.antt`): `plan_passing` says which, so that the caller can tell
//! what leaves, and `pass_on` does it. It keeps where the imports stand that bind each name, and of an export the names and references that
//! it lists, so it takes n log n steps where no name is bound twice.
#![tactic(auto)]

mod listed;
mod merged;
mod names;
mod passed;
mod passing;
mod repeated;
mod uses;

pub use merged::merge_imports;
pub use passing::{Passing, pass_on, plan_passing};
pub use repeated::drop_repeated;
pub use uses::Uses;
