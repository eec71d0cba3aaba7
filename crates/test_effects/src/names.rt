// A context in which nothing declares a name.
ghost use Rattle.js_effects.specs.Answers.{bare_effects};
ghost use Rattle.test_effects.specs.Names.{no_names};

use js_effects::{
    ConstantEvaluationCtx, ConstantValue, GlobalContext, MayHaveSideEffectsContext,
    PropertyReadSideEffects, ValueType,
};
use js_syntax::ReferenceId;
use js_tree::Node;
use std::alloc::Global;

/// Each name is global.
#[derive(Clone, Copy)]
pub(crate) struct NoNames {
    alloc: Global,
}

impl NoNames {
    pub(crate) fn new(alloc: Global) -> NoNames {
        NoNames { alloc }
    }
}

impl GlobalContext for NoNames {
    ghost names = { λ c. no_names };

    fn is_global_reference(&self, _reference: &Node) -> bool {
        true
    }

    fn get_constant_value_for_reference_id(
        &self,
        _reference_id: ReferenceId,
    ) -> Option<&ConstantValue> {
        None
    }

    fn value_type_for_reference_id(&self, _reference_id: ReferenceId) -> Option<ValueType> {
        None
    }
}

impl MayHaveSideEffectsContext for NoNames {
    ghost effects = { λ c. bare_effects };

    fn annotations(&self) -> bool {
        false
    }

    fn manual_pure_functions(&self, _callee: &Node) -> bool {
        false
    }

    fn property_read_side_effects(&self) -> PropertyReadSideEffects {
        PropertyReadSideEffects::All
    }

    fn property_write_side_effects(&self) -> bool {
        true
    }

    fn unknown_global_side_effects(&self) -> bool {
        true
    }

    fn this_is_initialised(&self) -> bool {
        true
    }

    fn inside_with(&self) -> bool {
        false
    }
}

impl ConstantEvaluationCtx for NoNames {
    fn alloc(&self) -> Global {
        self.alloc
    }
}
