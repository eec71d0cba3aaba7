//! What a JSON value says of a node beside the nodes below it.
//!
//! Here stand a node's type and row, each sort of field that is no node, and a field's slot: where
//! the nodes below are to be read. Each function has the definition of `json_text` of the same name
//! as its clause, faults included, so that what calls them in reading order gives the first fault.
#![tactic(auto)]

mod check;
mod extra;
mod kept;
mod name;
mod node;
mod place;
mod slot;
mod span;
mod word;

pub use extra::check_extras;
pub use kept::{
    LiteralText, flag_field, is_marked, literal_value, reg_exp_field, template_field, text_field,
};
pub use name::{
    KeyText, ModuleNameText, identifier_key, literal_key, module_name_field, name_field,
    optional_module_name_field, optional_name_field, source_field,
};
pub use node::{row_at, type_at};
pub use place::{Place, place_of};
pub use slot::{Slot, is_computed, is_directive, slot_of, takes_literal, takes_private};
pub use span::span_of;
pub use word::{
    assignment_operator_field, binary_operator_field, logical_operator_field, method_kind_field,
    property_kind_field, source_type_field, unary_operator_field, update_operator_field,
    variable_kind_field,
};
