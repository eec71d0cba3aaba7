// Whether two names or texts are equal.
ghost use Rattle.std.specs.Prelude.{◌≡◌, ◌↔◌, IsTrue};

use js_syntax::{Ident, Text};

pub(crate) fn same_text(one: &Text, other: &Text) -> bool
    ensures same { IsTrue result ↔ (one.now ≡ other.now) }
{
    one.as_str() == other.as_str()
}

pub(crate) fn same_ident(one: &Ident, other: &Ident) -> bool
    ensures same { IsTrue result ↔ (one.now ≡ other.now) }
{
    one.as_str() == other.as_str()
}

pub(crate) fn same_optional_text(one: &Option<Text>, other: &Option<Text>) -> bool
    ensures same { IsTrue result ↔ (one.now ≡ other.now) }
{
    match (one, other) {
        (Some(one), Some(other)) => same_text(one, other),
        (None, None) => true,
        (Some(_), None) => false,
        (None, Some(_)) => false,
    }
}

pub(crate) fn same_optional_ident(one: &Option<Ident>, other: &Option<Ident>) -> bool
    ensures same { IsTrue result ↔ (one.now ≡ other.now) }
{
    match (one, other) {
        (Some(one), Some(other)) => same_ident(one, other),
        (None, None) => true,
        (Some(_), None) => false,
        (None, Some(_)) => false,
    }
}
