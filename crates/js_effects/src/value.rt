// Values that are known before a program runs, and of which type values are.
ghost use Rattle.std.specs.Prelude.{◌≡◌, IfOk};
ghost use Rattle.js_effects.specs.Kinds.{type_of_constant};
ghost use Rattle.js_effects.specs.Values.{is_undefined};

use js_syntax::Text;
use std::alloc::{AllocError, Global};

/// Of which type a value is (ECMA-262 6.1), as far as that is known.
#[derive(Clone, Copy, Debug, PartialEq, Eq)]
pub enum ValueType {
    Undefined,
    Null,
    Number,
    Boolean,
    String,
    Object,
    Undetermined,
}

/// A value that is known: a primitive one, whose numbers are whole and within 2^53 - 1.
pub enum ConstantValue {
    Number(i64),
    Text(Text),
    Boolean(bool),
    Null,
    Undefined,
}

impl Drop for ConstantValue {
    fn drop(self) {
        match self {
            ConstantValue::Number(_) => {}
            ConstantValue::Text(_) => {}
            ConstantValue::Boolean(_) => {}
            ConstantValue::Null => {}
            ConstantValue::Undefined => {}
        }
    }
}

impl ConstantValue {
    /// Of which type the value is.
    pub fn value_type(&self) -> ValueType
        ensures of_value { result ≡ type_of_constant self.now }
    {
        match self {
            ConstantValue::Number(_) => ValueType::Number,
            ConstantValue::Text(_) => ValueType::String,
            ConstantValue::Boolean(_) => ValueType::Boolean,
            ConstantValue::Null => ValueType::Null,
            ConstantValue::Undefined => ValueType::Undefined,
        }
    }

    pub fn is_undefined(&self) -> bool
        ensures undefined { result ≡ is_undefined self.now }
    {
        matches!(self, ConstantValue::Undefined)
    }

    /// A copy of the value. The only error is want of memory.
    pub fn try_clone(&self, alloc: Global) -> Result<ConstantValue, AllocError>
        ensures equal { IfOk result (λ copy. copy ≡ self.now) }
    {
        match self {
            ConstantValue::Number(number) => Ok(ConstantValue::Number(*number)),
            ConstantValue::Text(text) => Ok(ConstantValue::Text(text.try_clone(alloc)?)),
            ConstantValue::Boolean(truth) => Ok(ConstantValue::Boolean(*truth)),
            ConstantValue::Null => Ok(ConstantValue::Null),
            ConstantValue::Undefined => Ok(ConstantValue::Undefined),
        }
    }
}
