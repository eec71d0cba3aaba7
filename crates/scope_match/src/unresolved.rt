// The names of a table that nothing declares, beside those that the rules make.
ghost use Rattle.std.specs.Prelude.{◌≡◌, ◌↔◌, ◌++◌, map, IfOk, OnOk, IsTrue};
ghost use Rattle.scope_match.specs.Items.{SameItems};
ghost use Rattle.scope_match.specs.Matches.{use_of, uses_in, use_by, SameUnresolved};
ghost use Rattle.scope_match.specs.Keys.{use_key};

use crate::items::same_items;
use crate::marks::mark_at;
use scope_table::Unresolved;
use std::alloc::{AllocError, Global};

fn names_of<'a>(alloc: Global, names: &'a [Unresolved]) -> Result<Vec<&'a str>, AllocError>
    ensures { IfOk result (λ v. map (λ x. x.now) v.items ≡ map (λ u. u.name) names.now) }
{
    let mut texts = Vec::new(alloc);
    for name in names {
        texts.push(name.name())?;
    }
    Ok(texts)
}

fn same_names(
    alloc: Global,
    given: &[Unresolved],
    wanted: &[Unresolved],
) -> Result<bool, AllocError>
    ensures { IfOk result (λ b. IsTrue b ↔ SameItems (map (λ u. u.name) given.now) (map (λ u. u.name) wanted.now)) }
{
    let given = names_of(alloc, given)?;
    let wanted = names_of(alloc, wanted)?;
    let same = same_items(alloc, &given, &wanted)?;
    Ok(same)
}

// ---- their uses

fn add_uses<'a>(uses: &mut Vec<(u32, &'a str)>, name: &'a Unresolved) -> Result<(), AllocError>
    ensures { OnOk result (map use_key uses.new.items ≡ map use_key uses.old.items ++ map (use_of name.now.name) name.now.references) }
{
    for reference in name.references() {
        uses.push((reference.0, name.name()))?;
    }
    Ok(())
}

fn uses_of<'a>(alloc: Global, names: &'a [Unresolved]) -> Result<Vec<(u32, &'a str)>, AllocError>
    ensures { IfOk result (λ v. map use_key v.items ≡ uses_in names.now) }
{
    let mut uses = Vec::new(alloc);
    for name in names {
        add_uses(&mut uses, name)?;
    }
    Ok(uses)
}

fn marks_of_uses<'a>(
    alloc: Global,
    uses: &[(u32, &'a str)],
    marks: &[u32],
) -> Result<Vec<(u32, &'a str)>, AllocError>
    ensures { IfOk result (λ v. map use_key v.items ≡ map (use_by marks.now) (map use_key uses.now)) }
{
    let mut marked = Vec::new(alloc);
    for used in uses {
        marked.push((mark_at(marks, used.0), used.1))?;
    }
    Ok(marked)
}

fn same_uses(
    alloc: Global,
    given: &[Unresolved],
    wanted: &[Unresolved],
    marks: &[u32],
) -> Result<bool, AllocError>
    ensures { IfOk result (λ b. IsTrue b ↔ SameItems (uses_in given.now) (map (use_by marks.now) (uses_in wanted.now))) }
{
    let given = uses_of(alloc, given)?;
    let wanted = uses_of(alloc, wanted)?;
    let marked = marks_of_uses(alloc, &wanted, marks)?;
    let same = same_items(alloc, &given, &marked)?;
    Ok(same)
}

/// Whether the names are those that are wanted, with the marks of their references.
pub(crate) fn same_unresolved(
    alloc: Global,
    given: &[Unresolved],
    wanted: &[Unresolved],
    marks: &[u32],
) -> Result<bool, AllocError>
    ensures { IfOk result (λ b. IsTrue b ↔ SameUnresolved marks.now given.now wanted.now) }
{
    let names = same_names(alloc, given, wanted)?;
    let uses = same_uses(alloc, given, wanted, marks)?;
    Ok(names && uses)
}
