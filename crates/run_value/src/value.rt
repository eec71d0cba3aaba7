// Values.
ghost use Rattle.std.specs.Prelude.{◌≡◌, map, IfOk};
ghost use Rattle.js_meaning.specs.Expression.{array_content};
ghost use Rattle.run_value.specs.View.{value_of, content_of};

use crate::env::Env;
use crate::plain::Plain;
use js_syntax::FunctionKind;
use js_tree::Node;
use std::alloc::{AllocError, Global};
use std::marker::Model;
use std::rc::Rc;

/// What the language itself throws.
#[derive(Clone, Copy)]
pub enum ErrorKind {
    TypeError,
    ReferenceError,
}

/// A value. An own object has a number that no other object has.
#[cycle(value)]
pub enum Value<'a> {
    Plain(Plain),
    /// A function: what lies below its node, and the names around it.
    Closure(usize, FunctionKind, &'a [Option<Node>], Env<'a>),
    Object(usize, Rc<Content<'a>>),
    Array(usize, Rc<Content<'a>>),
    Error(usize, ErrorKind),
}

impl<'a> Drop for Value<'a> {
    #[cycle(drop)]
    fn drop(self) {
        match self {
            Value::Plain(_) => {}
            Value::Closure(_, _, _, _) => {}
            Value::Object(_, _) => {}
            Value::Array(_, _) => {}
            Value::Error(_, _) => {}
        }
    }
}

/// What a literal holds: values, the first of which have keys.
#[cycle(value)]
pub struct Content<'a> {
    keys: Vec<Rc<String>>,
    values: Vec<Value<'a>>,
}

impl<'a> Drop for Content<'a> {
    #[cycle(drop)]
    fn drop(self) {
        let Content { keys: _, values: _ } = self;
    }
}

impl<'a> Model for Content<'a> {
    ghost use Rattle.js_meaning.specs.Value.{Content};
    ghost use Rattle.run_value.specs.Code.{content_code};

    ghost Value = { Content };

    ghost coded = { content_code };

    ghost use Rattle.run_value.specs.View.{content_of};

    ghost view = { λ c. content_of c.keys.items c.values.items };

    ghost use Rattle.run_value.specs.Weight.{content_size};

    ghost size = { content_size };

    ghost use Rattle.run_value.specs.Size.{deepest_in_content};

    ghost size_decreases = { λ c h. deepest_in_content c.keys.items c.values.items };
}

impl<'a> Content<'a> {
    // These values, the first of which have these keys.
    pub(crate) fn new(keys: Vec<Rc<String>>, values: Vec<Value<'a>>) -> Content<'a>
        ensures { result ≡ content_of keys.items values.entry.items }
    {
        Content { keys, values }
    }

    /// What an array with these elements holds.
    pub fn array(alloc: Global, values: Vec<Value<'a>>) -> Content<'a>
        ensures { result ≡ array_content (map value_of values.entry.items) }
    {
        Content {
            keys: Vec::new(alloc),
            values,
        }
    }

    /// The keys and the values.
    pub fn parts(&self) -> (&[Rc<String>], &[Value<'a>])
        ensures { content_of result.0.now result.1.now ≡ self.now }
    {
        (self.keys.as_slice(), self.values.as_slice())
    }
}

impl<'a> Value<'a> {
    /// The same once more.
    pub fn copy(&self) -> Result<Value<'a>, AllocError>
        ensures { IfOk result (λ v. value_of v ≡ value_of self.now) }
    {
        match self {
            Value::Plain(plain) => {
                let plain = plain.copy()?;
                Ok(Value::Plain(plain))
            }
            Value::Closure(number, kind, below, env) => {
                let env = env.copy()?;
                Ok(Value::Closure(*number, *kind, *below, env))
            }
            Value::Object(number, content) => {
                let content = content.clone()?;
                Ok(Value::Object(*number, content))
            }
            Value::Array(number, content) => {
                let content = content.clone()?;
                Ok(Value::Array(*number, content))
            }
            Value::Error(number, kind) => Ok(Value::Error(*number, *kind)),
        }
    }
}
