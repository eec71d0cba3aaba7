//! Which expressions are silent: to run one has no effect that anybody could see. Which value has one, and of which type?
//!
//! `specs/Silence.antt` lists the forms that are silent by the bindings of names and by what stands around (`Surroundings`), and
//! `may_have_side_effects` answers by exactly that definition. Over what a context answers of names and options
//! (`specs/Answers.antt`) `has_side_effects` tells effects, `value_type` types, `evaluate_value` values and
//! `evaluate_value_to_boolean` truth in tests, exactly as `specs/Effects.antt`, `specs/Kinds.antt` and `specs/Values.antt`
//! define them, one line a form.
#![tactic(auto)]

mod arithmetic;
mod child;
mod context;
mod effects;
mod evaluate;
mod form;
mod known;
mod number;
mod operator;
mod parts;
mod silent;
mod surroundings;
mod text;
mod types;
mod value;

pub use context::{BareContext, ConstantEvaluationCtx, GlobalContext, MayHaveSideEffectsContext};
pub use effects::has_side_effects;
pub use evaluate::{binary_operation_evaluate_value, evaluate_value, evaluate_value_to_boolean};
pub use min_options::PropertyReadSideEffects;
pub use number::{in_range, string_to_equivalent_number_value};
pub use silent::{is_marked, may_have_side_effects, none_has_side_effects, only_combines};
pub use surroundings::Surroundings;
pub use types::value_type;
pub use value::{ConstantValue, ValueType};
