// Names that a module exports (ECMA-262 16.2.1.1).
ghost use Rattle.std.specs.Prelude.{◌≡◌, ℕ, List, [], IfOk};
ghost use Rattle.form_rules.specs.Break.{least};
ghost use Rattle.form_rules.specs.Rules.{each_breaks, repeated_exports, is_declared, undeclared};
ghost use Rattle.form_names.specs.Names.{has_name};

use crate::places::first_unless;
use form_rules::{Break, Declared, Exported};
use std::alloc::{AllocError, Global};
use std::collections::BTreeSet;

/// Where a name is exported that was exported before: a break of rule 7.
pub fn first_repeated_export(
    alloc: Global,
    exported: &[Exported],
) -> Result<Option<Break>, AllocError>
    ensures first { IfOk result (λ b. b ≡ least (each_breaks 7 (repeated_exports [] exported.now))) }
{
    let mut names = BTreeSet::new(alloc);
    let mut first = None;
    for export in exported {
        let is_new = names.insert(export.name())?;
        first = first_unless(first, is_new, export.place(), 7);
    }
    Ok(first)
}

/// Where a name is exported that isn't declared: a break of rule 7. Where none is exported, declared ones aren't looked at.
pub fn first_undeclared(
    alloc: Global,
    declared: &[Declared],
    exported: &[Exported],
) -> Result<Option<Break>, AllocError>
    ensures first { IfOk result (λ b. b ≡ least (each_breaks 7 (undeclared declared.now exported.now))) }
{
    match exported {
        [] => Ok(None),
        [_, ..] => undeclared_among(alloc, declared, exported),
    }
}

fn undeclared_among(
    alloc: Global,
    declared: &[Declared],
    exported: &[Exported],
) -> Result<Option<Break>, AllocError>
    ensures { IfOk result (λ b. b ≡ least (each_breaks 7 (undeclared declared.now exported.now))) }
{
    let names = declared_names(alloc, declared)?;
    let mut first = None;
    for export in exported {
        let is_declared = names.contains(export.name());
        first = first_unless(first, is_declared, export.place(), 7);
    }
    Ok(first)
}

fn declared_names<'a>(
    alloc: Global,
    declared: &[Declared<'a>],
) -> Result<BTreeSet<&'a str>, AllocError>
    ensures { IfOk result (λ names. (q : List ℕ) → has_name names q ≡ is_declared q declared.now) }
{
    let mut names = BTreeSet::new(alloc);
    for declaration in declared {
        names.insert(declaration.name())?;
    }
    Ok(names)
}
