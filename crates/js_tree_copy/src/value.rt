// Copies of what nodes carry beside names, texts, words and flags.
ghost use Rattle.std.specs.Prelude.{◌≡◌, IfOk};

use crate::text::clone_optional_text;
use js_syntax::{Key, LiteralValue, ModuleName, RegExpText, TemplateText};
use std::alloc::{AllocError, Global};

pub(crate) fn clone_value(alloc: Global, value: &LiteralValue) -> Result<LiteralValue, AllocError>
    ensures equal { IfOk result (λ v. v ≡ value.now) }
{
    match value {
        LiteralValue::Null => Ok(LiteralValue::Null),
        LiteralValue::Boolean(value) => Ok(LiteralValue::Boolean(*value)),
        LiteralValue::Number(value) => Ok(LiteralValue::Number(*value)),
        LiteralValue::Text(text) => Ok(LiteralValue::Text(text.try_clone(alloc)?)),
    }
}

pub(crate) fn clone_key(alloc: Global, key: &Key) -> Result<Key, AllocError>
    ensures equal { IfOk result (λ k. k ≡ key.now) }
{
    match key {
        Key::Name(name) => Ok(Key::Name(name.try_clone(alloc)?)),
        Key::Text(text) => Ok(Key::Text(text.try_clone(alloc)?)),
        Key::Number(number) => Ok(Key::Number(*number)),
        Key::Below => Ok(Key::Below),
    }
}

pub(crate) fn clone_module_name(alloc: Global, name: &ModuleName) -> Result<ModuleName, AllocError>
    ensures equal { IfOk result (λ n. n ≡ name.now) }
{
    match name {
        ModuleName::Name(name) => Ok(ModuleName::Name(name.try_clone(alloc)?)),
        ModuleName::Text(text) => Ok(ModuleName::Text(text.try_clone(alloc)?)),
    }
}

pub(crate) fn clone_optional_module_name(
    alloc: Global,
    name: &Option<ModuleName>,
) -> Result<Option<ModuleName>, AllocError>
    ensures equal { IfOk result (λ n. n ≡ name.now) }
{
    match name {
        Some(name) => Ok(Some(clone_module_name(alloc, name)?)),
        None => Ok(None),
    }
}

pub(crate) fn clone_template_text(
    alloc: Global,
    text: &TemplateText,
) -> Result<TemplateText, AllocError>
    ensures equal { IfOk result (λ t. t ≡ text.now) }
{
    let raw = text.raw.try_clone(alloc)?;
    let cooked = clone_optional_text(alloc, &text.cooked)?;
    Ok(TemplateText { raw, cooked })
}

pub(crate) fn clone_reg_exp_text(alloc: Global, text: &RegExpText) -> Result<RegExpText, AllocError>
    ensures equal { IfOk result (λ t. t ≡ text.now) }
{
    let pattern = text.pattern.try_clone(alloc)?;
    let flags = text.flags.try_clone(alloc)?;
    Ok(RegExpText { pattern, flags })
}
