// Values, and what is found in them.
ghost use Rattle.std.specs.Prelude.{◌≡◌, option_map, is_some};
ghost use Rattle.serde_json.specs.Find.{as_null, as_object, get, get_member};
ghost use Rattle.json_value.specs.View.{view, members_view};

use serde_json::Number;

/// A JSON value. Its texts stand in the input, or in the room of the reader where they have escapes.
#[derive(Drop)]
pub enum Value<'a> {
    Null,
    Bool(bool),
    Number(Number),
    String(&'a str),
    Array(Vec<Value<'a>>),
    Object(Vec<(&'a str, Value<'a>)>),
}

impl<'a> Value<'a> {
    pub fn is_object(&self) -> bool
        ensures { result ≡ is_some (as_object (view self.now)) }
    {
        matches!(self, Value::Object(_))
    }

    pub fn is_null(&self) -> bool
        ensures { result ≡ is_some (as_null (view self.now)) }
    {
        matches!(self, Value::Null)
    }

    /// The value of this key, where this is an object that has it: the last one of several. It looks at each member, the
    /// last first.
    pub fn get(&self, key: &str) -> Option<&Value<'a>>
        ensures { option_map (λ v. view v.now) result ≡ get key.now (view self.now) }
    {
        match self {
            Value::Object(members) => find(members, key),
            _ => None,
        }
    }
}

fn find<'v, 'a>(members: &'v Vec<(&'a str, Value<'a>)>, key: &str) -> Option<&'v Value<'a>>
    ensures { option_map (λ v. view v.now) result ≡ get_member key.now (members_view members.now.items) }
{
    let mut left = members.len();
    'members: while left > 0 {
        left -= 1;
        let member = &members[left];
        if member.0 == key {
            return Some(&member.1);
        }
    }
    None
}
