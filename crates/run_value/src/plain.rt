// Values that are no objects of the program's own.
ghost use Rattle.std.specs.Prelude.{◌≡◌, IfOk};
ghost use Rattle.run_value.specs.Plain.{plain_of};

use std::alloc::AllocError;
use std::rc::Rc;

/// Which primitive values have no content here but what `typeof` says of them.
#[derive(Clone, Copy)]
pub enum PrimitiveKind {
    Number,
    Bigint,
    Symbol,
    Text,
}

/// A primitive value, or an object of the host: its number, and whether it can be called. Of any other
/// primitive value of the host: a number that names it, its kind, and whether it is true in a test.
pub enum Plain {
    Undefined,
    Null,
    Boolean(bool),
    Number(i64),
    Text(Rc<String>),
    Host(u64, bool),
    Other(u64, PrimitiveKind, bool),
}

impl Drop for Plain {
    fn drop(self) {
        match self {
            Plain::Undefined => {}
            Plain::Null => {}
            Plain::Boolean(_) => {}
            Plain::Number(_) => {}
            Plain::Text(_) => {}
            Plain::Host(_, _) => {}
            Plain::Other(_, _, _) => {}
        }
    }
}

impl Plain {
    /// The same once more.
    pub fn copy(&self) -> Result<Plain, AllocError>
        ensures { IfOk result (λ p. plain_of p ≡ plain_of self.now) }
    {
        match self {
            Plain::Undefined => Ok(Plain::Undefined),
            Plain::Null => Ok(Plain::Null),
            Plain::Boolean(b) => Ok(Plain::Boolean(*b)),
            Plain::Number(n) => Ok(Plain::Number(*n)),
            Plain::Text(text) => {
                let text = text.clone()?;
                Ok(Plain::Text(text))
            }
            Plain::Host(number, callable) => Ok(Plain::Host(*number, *callable)),
            Plain::Other(number, kind, truth) => Ok(Plain::Other(*number, *kind, *truth)),
        }
    }
}
