// What an object literal holds while it is made (ECMA-262 13.2.5).
ghost use Rattle.std.specs.Prelude.{◌≡◌, ◌<◌, vec_len, string_bytes, IfOk};
ghost use Rattle.std.proofs.Math.ListN.{set};
ghost use Rattle.js_meaning.specs.Value.{no_content};
ghost use Rattle.js_meaning.specs.Expression.{with_property};
ghost use Rattle.run_value.specs.View.{value_of};
ghost use Rattle.run_value.specs.Place.{place_from};

use crate::value::{Content, Value};
use std::alloc::{AllocError, Global};
use std::marker::Model;
use std::rc::Rc;

/// Keys with their values, in the order in which the keys first came.
pub struct Properties<'a> {
    keys: Vec<Rc<String>>,
    values: Vec<Value<'a>>,
}

impl<'a> Drop for Properties<'a> {
    fn drop(self) {
        let Properties { keys: _, values: _ } = self;
    }
}

impl<'a> Model for Properties<'a> {
    ghost use Rattle.std.specs.Prelude.{◌≡◌, length};
    ghost use Rattle.js_meaning.specs.Value.{Content};
    ghost use Rattle.run_value.specs.Code.{content_code};

    ghost Value = { Content };

    ghost coded = { content_code };

    ghost use Rattle.run_value.specs.View.{content_of};

    ghost view = { λ p. content_of p.keys.items p.values.items };

    ghost invariant = { λ p. length p.keys.items ≡ length p.values.items };
}

// The first place of a key.
fn place_of(keys: &[Rc<String>], key: &Rc<String>) -> Option<usize>
    ensures { result ≡ place_from 0 keys.now (string_bytes key.now.value) }
{
    for (i, own) in keys.iter().enumerate() {
        if own.as_str() == key.as_str() {
            return Some(i);
        }
    }
    None
}

fn put_at<'a>(values: &mut Vec<Value<'a>>, at: usize, value: Value<'a>)
    requires { at < vec_len values.old }
    ensures { values.new.items ≡ set values.old.items at value.entry }
{
    values[at] = value;
}

impl<'a> Properties<'a> {
    /// No properties.
    pub fn new(alloc: Global) -> Properties<'a>
        ensures { result ≡ no_content }
    {
        Properties {
            keys: Vec::new(alloc),
            values: Vec::new(alloc),
        }
    }

    /// These with a value for a key: one that comes again keeps its place.
    pub fn with(self, key: Rc<String>, value: Value<'a>) -> Result<Properties<'a>, AllocError>
        ensures { IfOk result (λ p. p ≡ with_property (string_bytes key.value) (value_of value.entry) self.entry) }
    {
        let Properties {
            mut keys,
            mut values,
        } = self;
        match place_of(keys.as_slice(), &key) {
            Some(i) => {
                put_at(&mut values, i, value);
                Ok(Properties { keys, values })
            }
            None => {
                keys.push(key)?;
                values.push(value)?;
                Ok(Properties { keys, values })
            }
        }
    }

    /// What an object with these properties holds.
    pub fn into_content(self) -> Content<'a>
        ensures { result ≡ self.entry }
    {
        let Properties { keys, values } = self;
        Content::new(keys, values)
    }
}
