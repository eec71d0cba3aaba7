// What is asked about expressions beside their form.
ghost use Rattle.std.specs.Prelude.{◌≡◌};
ghost use Rattle.std.specs.Option.{option_map};
ghost use Rattle.js_syntax.specs.Node.{forest_of};
ghost use Rattle.js_effects.specs.Answers.{Names, Effects, reading_acts, bare_names, bare_effects};

use crate::value::{ConstantValue, ValueType};
use js_syntax::ReferenceId;
use js_tree::Node;
use min_options::PropertyReadSideEffects;
use std::alloc::Global;

/// Who knows what names mean.
pub trait GlobalContext {
    /// All that it answers.
    ghost names: { Self → Names };

    /// Whether a reference means a name that nothing declares.
    fn is_global_reference(&self, reference: &Node) -> bool
        ensures global { result ≡ (names self.now).is_global reference.now.kind reference.now.note };

    /// The value that a reference's name has wherever it may read it, if that is known.
    fn get_constant_value_for_reference_id(
        &self,
        reference_id: ReferenceId,
    ) -> Option<&ConstantValue>
        ensures constant { option_map (λ c. c.now) result ≡ (names self.now).constant reference_id.0 };

    /// Of which type the values of a reference's name are, if that is known.
    fn value_type_for_reference_id(&self, reference_id: ReferenceId) -> Option<ValueType>
        ensures constant_type { result ≡ (names self.now).constant_type reference_id.0 };
}

/// Who knows what is taken for an effect.
pub trait MayHaveSideEffectsContext: GlobalContext {
    /// All that it answers besides.
    ghost effects: { Self → Effects };

    /// Whether annotations of pure calls and of functions without side effects are believed.
    fn annotations(&self) -> bool
        ensures annotations { result ≡ (effects self.now).annotations };

    /// Whether a callee is one of the functions that are named as pure.
    fn manual_pure_functions(&self, callee: &Node) -> bool
        ensures pure_function { result ≡ (effects self.now).is_pure_function (forest_of callee.now) };

    /// Which reads of properties are effects.
    fn property_read_side_effects(&self) -> PropertyReadSideEffects
        ensures reads { reading_acts result ≡ (effects self.now).reads_act };

    /// Whether writes of properties are.
    fn property_write_side_effects(&self) -> bool
        ensures writes { result ≡ (effects self.now).writes_act };

    /// Whether reads of names that nothing declares are.
    fn unknown_global_side_effects(&self) -> bool
        ensures globals { result ≡ (effects self.now).unknown_globals_act };

    /// Whether `this` may be read where the expression stands.
    fn this_is_initialised(&self) -> bool
        ensures this { result ≡ (effects self.now).this_is_initialised };

    /// Whether the expression stands inside of a `with` statement.
    fn inside_with(&self) -> bool
        ensures with_around { result ≡ (effects self.now).inside_with };
}

/// Who knows both, and where memory for values comes from.
pub trait ConstantEvaluationCtx: MayHaveSideEffectsContext {
    fn alloc(&self) -> Global;
}

/// Knows nothing of names: none is global or stands inside of a `with` statement, and none has a value. `this` may be
/// read, and the options are the default ones, without annotations.
#[derive(Clone, Copy)]
pub(crate) struct FormsAlone;

impl GlobalContext for FormsAlone {
    ghost names = { λ c. bare_names };

    fn is_global_reference(&self, _reference: &Node) -> bool {
        false
    }

    fn get_constant_value_for_reference_id(
        &self,
        _reference_id: ReferenceId,
    ) -> Option<&ConstantValue> {
        None
    }

    fn value_type_for_reference_id(&self, _reference_id: ReferenceId) -> Option<ValueType> {
        None
    }
}

impl MayHaveSideEffectsContext for FormsAlone {
    ghost effects = { λ c. bare_effects };

    fn annotations(&self) -> bool {
        false
    }

    fn manual_pure_functions(&self, _callee: &Node) -> bool {
        false
    }

    fn property_read_side_effects(&self) -> PropertyReadSideEffects {
        PropertyReadSideEffects::All
    }

    fn property_write_side_effects(&self) -> bool {
        true
    }

    fn unknown_global_side_effects(&self) -> bool {
        true
    }

    fn this_is_initialised(&self) -> bool {
        true
    }

    fn inside_with(&self) -> bool {
        false
    }
}

/// Knows as little of names, and where memory for values comes from.
#[derive(Clone, Copy)]
pub struct BareContext {
    alloc: Global,
}

impl BareContext {
    pub fn new(alloc: Global) -> BareContext {
        BareContext { alloc }
    }
}

impl GlobalContext for BareContext {
    ghost names = { λ c. bare_names };

    fn is_global_reference(&self, _reference: &Node) -> bool {
        false
    }

    fn get_constant_value_for_reference_id(
        &self,
        _reference_id: ReferenceId,
    ) -> Option<&ConstantValue> {
        None
    }

    fn value_type_for_reference_id(&self, _reference_id: ReferenceId) -> Option<ValueType> {
        None
    }
}

impl MayHaveSideEffectsContext for BareContext {
    ghost effects = { λ c. bare_effects };

    fn annotations(&self) -> bool {
        false
    }

    fn manual_pure_functions(&self, _callee: &Node) -> bool {
        false
    }

    fn property_read_side_effects(&self) -> PropertyReadSideEffects {
        PropertyReadSideEffects::All
    }

    fn property_write_side_effects(&self) -> bool {
        true
    }

    fn unknown_global_side_effects(&self) -> bool {
        true
    }

    fn this_is_initialised(&self) -> bool {
        true
    }

    fn inside_with(&self) -> bool {
        false
    }
}

impl ConstantEvaluationCtx for BareContext {
    fn alloc(&self) -> Global {
        self.alloc
    }
}
