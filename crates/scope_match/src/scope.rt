// Scopes of a table, beside those that the rules make.
ghost use Rattle.std.specs.Prelude.{◌≡◌, ◌↔◌, ◌<◌, ◌^◌, ℕ, length, option_map, Decides, IfOk, IsTrue};
ghost use Rattle.scope_table.specs.Reading.{scope_at};
ghost use Rattle.scope_match.specs.Matches.{mark_at, SameScope};

use crate::lists::same_names;
use crate::marks::{Marks, mark_at, mark_if_some};
use js_syntax::ScopeId;
use scope_table::Scoping;
use std::alloc::{AllocError, Global};

fn number_of(scope: Option<ScopeId>) -> Option<u32>
    ensures { result ≡ option_map (λ s. s.0) scope }
{
    match scope {
        Some(scope) => Some(scope.0),
        None => None,
    }
}

fn same_parent(
    scoping: &Scoping,
    given: ScopeId,
    table: &Scoping,
    wanted: ScopeId,
    marks: &[u32],
) -> bool
    requires given { given.0 < length scoping.now.scopes }
    requires wanted { wanted.0 < length table.now.scopes }
    ensures { Decides result ((scope_at scoping.now given.0).parent ≡ option_map (mark_at marks.now) (scope_at table.now wanted.0).parent) }
{
    let parent = number_of(scoping.scope_parent_id(given));
    parent == mark_if_some(marks, number_of(table.scope_parent_id(wanted)))
}

fn same_flags(scoping: &Scoping, given: ScopeId, table: &Scoping, wanted: ScopeId) -> bool
    requires given { given.0 < length scoping.now.scopes }
    requires wanted { wanted.0 < length table.now.scopes }
    ensures { Decides result ((scope_at scoping.now given.0).flags ≡ (scope_at table.now wanted.0).flags) }
{
    scoping.scope_flags(given) == table.scope_flags(wanted)
}

// Whether the table has the scope at its mark.
fn same_scope(
    alloc: Global,
    scoping: &Scoping,
    table: &Scoping,
    marks: &Marks,
    number: u32,
) -> Result<bool, AllocError>
    requires { number < length table.now.scopes }
    ensures { IfOk result (λ b. IsTrue b ↔ SameScope marks.now scoping.now table.now number) }
{
    let wanted = ScopeId(number);
    let given = ScopeId(mark_at(marks.scopes(), number));
    if given.0 as usize >= scoping.scopes_len() {
        return Ok(false);
    }
    if !same_parent(scoping, given, table, wanted, marks.scopes()) {
        return Ok(false);
    }
    if !same_flags(scoping, given, table, wanted) {
        return Ok(false);
    }
    let names = scoping.get_bindings(given);
    let same = same_names(alloc, names, table.get_bindings(wanted), marks.symbols())?;
    Ok(same)
}

/// Whether the table has each scope at its mark.
pub(crate) fn same_scopes(
    alloc: Global,
    scoping: &Scoping,
    table: &Scoping,
    marks: &Marks,
) -> Result<bool, AllocError>
    requires few { length table.now.scopes < 2 ^ 32 }
    ensures { IfOk result (λ b. IsTrue b ↔ ((n : ℕ) → n < length table.now.scopes → SameScope marks.now scoping.now table.now n)) }
{
    for i in 0..table.scopes_len() {
        if !same_scope(alloc, scoping, table, marks, i as u32)? {
            return Ok(false);
        }
    }
    Ok(true)
}
