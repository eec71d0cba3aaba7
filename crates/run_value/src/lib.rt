//! What programs compute with, in memory: values, environments, what operators give, and what the host sees of them.
//!
//! A `Value` is seen by contracts as the value of `js_meaning` (`value_of` in `specs/View.antt`), an
//! `Env` as its environment. Each function here answers exactly what a definition of `js_meaning` says,
//! where that looks at no state. Texts and what literals hold are shared, so a copy is cheap. `show_value` shows a value to
//! the host as the definition of `js_meaning` does (`specs/Show.antt` there): an own object by its number in the order of
//! first showing, and at first with what it is and what it holds.
#![tactic(auto)]

mod env;
mod event;
mod number;
mod object;
mod operator;
mod plain;
mod show;
mod shown;
mod value;

pub use env::{Bound, Env, Slot};
pub use event::{Act, Ending, Event, Events, ShownExport, ShownExports, Trace};
pub use object::Properties;
pub use operator::{
    binary_of, either_other, goes_right, has_identity, is_boolean, is_object, is_other,
    literal_value, truthy, unary_of, updated,
};
pub use plain::{Plain, PrimitiveKind};
pub use show::show_value;
pub use shown::{Given, Parts, Shown, Sort};
pub use value::{Content, ErrorKind, Value};
