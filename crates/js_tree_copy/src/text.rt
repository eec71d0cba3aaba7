// Copies of names and texts that may not be there.
ghost use Rattle.std.specs.Prelude.{◌≡◌, IfOk};

use js_syntax::{Ident, Text};
use std::alloc::{AllocError, Global};

pub(crate) fn clone_optional_text(
    alloc: Global,
    text: &Option<Text>,
) -> Result<Option<Text>, AllocError>
    ensures equal { IfOk result (λ t. t ≡ text.now) }
{
    match text {
        Some(text) => Ok(Some(text.try_clone(alloc)?)),
        None => Ok(None),
    }
}

pub(crate) fn clone_optional_ident(
    alloc: Global,
    name: &Option<Ident>,
) -> Result<Option<Ident>, AllocError>
    ensures equal { IfOk result (λ n. n ≡ name.now) }
{
    match name {
        Some(name) => Ok(Some(name.try_clone(alloc)?)),
        None => Ok(None),
    }
}
