// Whether two of the things that nodes carry are equal.
ghost use Rattle.std.specs.Prelude.{◌≡◌, ◌↔◌, IsTrue};

use crate::text::{same_ident, same_optional_text, same_text};
use js_syntax::{Key, LiteralValue, ModuleName, RegExpText, TemplateText};

pub(crate) fn same_value(one: &LiteralValue, other: &LiteralValue) -> bool
    ensures same { IsTrue result ↔ (one.now ≡ other.now) }
{
    match one {
        LiteralValue::Null => matches!(other, LiteralValue::Null),
        LiteralValue::Boolean(value) => match other {
            LiteralValue::Boolean(other_value) => *value == *other_value,
            _ => false,
        },
        LiteralValue::Number(value) => match other {
            LiteralValue::Number(other_value) => *value == *other_value,
            _ => false,
        },
        LiteralValue::Text(text) => match other {
            LiteralValue::Text(other_text) => same_text(text, other_text),
            _ => false,
        },
    }
}

pub(crate) fn same_key(one: &Key, other: &Key) -> bool
    ensures same { IsTrue result ↔ (one.now ≡ other.now) }
{
    match one {
        Key::Name(name) => match other {
            Key::Name(other_name) => same_ident(name, other_name),
            _ => false,
        },
        Key::Text(text) => match other {
            Key::Text(other_text) => same_text(text, other_text),
            _ => false,
        },
        Key::Number(number) => match other {
            Key::Number(other_number) => *number == *other_number,
            _ => false,
        },
        Key::Below => matches!(other, Key::Below),
    }
}

pub(crate) fn same_module_name(one: &ModuleName, other: &ModuleName) -> bool
    ensures same { IsTrue result ↔ (one.now ≡ other.now) }
{
    match one {
        ModuleName::Name(name) => match other {
            ModuleName::Name(other_name) => same_ident(name, other_name),
            _ => false,
        },
        ModuleName::Text(text) => match other {
            ModuleName::Text(other_text) => same_text(text, other_text),
            _ => false,
        },
    }
}

pub(crate) fn same_optional_module_name(
    one: &Option<ModuleName>,
    other: &Option<ModuleName>,
) -> bool
    ensures same { IsTrue result ↔ (one.now ≡ other.now) }
{
    match (one, other) {
        (Some(one), Some(other)) => same_module_name(one, other),
        (None, None) => true,
        (Some(_), None) => false,
        (None, Some(_)) => false,
    }
}

pub(crate) fn same_template_text(one: &TemplateText, other: &TemplateText) -> bool
    ensures same { IsTrue result ↔ (one.now ≡ other.now) }
{
    same_text(&one.raw, &other.raw) && same_optional_text(&one.cooked, &other.cooked)
}

pub(crate) fn same_reg_exp_text(one: &RegExpText, other: &RegExpText) -> bool
    ensures same { IsTrue result ↔ (one.now ≡ other.now) }
{
    same_text(&one.pattern, &other.pattern) && same_text(&one.flags, &other.flags)
}
