// Private names that a class declares (ECMA-262 15.7.1).
ghost use Rattle.std.specs.Prelude.{◌≡◌, [], IfOk};
ghost use Rattle.form_rules.specs.Break.{least};
ghost use Rattle.form_rules.specs.Rules.{each_breaks, repeated_privates};

use crate::halves::declare_half;
use crate::places::first_unless;
use form_rules::{Break, Private};
use std::alloc::{AllocError, Global};
use std::collections::BTreeMap;

/// Where a class declares a private name a second time, but for a getter and a setter: a break of rule 4.
pub fn first_repeated_private(
    alloc: Global,
    privates: &[Private],
) -> Result<Option<Break>, AllocError>
    ensures first { IfOk result (λ b. b ≡ least (each_breaks 4 (repeated_privates [] privates.now))) }
{
    let mut known = BTreeMap::new(alloc);
    let mut first = None;
    for private in privates {
        let half = private.half();
        let is_static = private.is_static();
        let before = declare_half(&mut known, private.name(), half, is_static)?;
        let is_new = !before.are_repeated(half, is_static);
        first = first_unless(first, is_new, private.place(), 4);
    }
    Ok(first)
}
