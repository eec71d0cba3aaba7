// Whether a table matches a program.
ghost use Rattle.std.specs.Prelude.{◌≡◌, ◌↔◌, ◌^◌, ◌<◌, length, true, IfOk, IsTrue};
ghost use Rattle.js_syntax.specs.Node.{forest_of};
ghost use Rattle.js_tree.specs.Count.{node_count};
ghost use Rattle.scope_match.specs.Matches.{SameTable, MatchesFound, Matches};

use crate::marks::{Marks, are_marked, marks_of};
use crate::reference::same_references;
use crate::scope::same_scopes;
use crate::symbol::same_symbols;
use crate::unresolved::same_unresolved;
use js_tree::Program;
use scope_context::Found;
use scope_table::{Scoped, Scoping, table};
use scope_walk::find_sites;
use std::alloc::{AllocError, Global};

// Whether the table says what this one says, where the numbers of this one stand for marks.
fn same_table(
    alloc: Global,
    scoping: &Scoping,
    table: &Scoping,
    marks: &Marks,
) -> Result<bool, AllocError>
    requires few { length table.now.scopes < 2 ^ 32 }
    ensures { IfOk result (λ b. IsTrue b ↔ SameTable marks.now scoping.now table.now) }
{
    if !same_scopes(alloc, scoping, table, marks)? {
        return Ok(false);
    }
    if !same_symbols(alloc, scoping, table, marks)? {
        return Ok(false);
    }
    if !same_references(scoping, table, marks) {
        return Ok(false);
    }
    let given = scoping.root_unresolved_references();
    let wanted = table.root_unresolved_references();
    let same = same_unresolved(alloc, given, wanted, marks.references())?;
    Ok(same)
}

fn matches_found(alloc: Global, scoping: &Scoping, found: &Found) -> Result<bool, AllocError>
    requires few_scopes { length found.now.scopes < 2 ^ 32 }
    requires few_bindings { length found.now.bindings < 2 ^ 32 }
    requires few_references { length found.now.references < 2 ^ 32 }
    ensures { IfOk result (λ b. IsTrue b ↔ MatchesFound scoping.now found.now) }
{
    let made = table(alloc, found)?;
    let marks = marks_of(alloc, found, &made.symbols)?;
    let count = made.scoping.symbols_len();
    if !are_marked(alloc, found, &made.symbols, &marks, count)? {
        return Ok(false);
    }
    let same = same_table(alloc, scoping, &made.scoping, &marks)?;
    Ok(same)
}

/// Whether a table says at every node of a program what the rules say, where its numbers are those that the
/// nodes are marked with. What it says at other numbers is not looked at. The recursion goes as deep as the
/// tree.
pub fn scoping_matches(
    alloc: Global,
    scoping: &Scoping,
    program: &Program,
) -> Result<bool, AllocError>
    requires small { node_count (forest_of program.now) < 2 ^ 32 }
    ensures answer { IfOk result (λ b. (b ≡ true) ↔ Matches scoping.now (forest_of program.now)) }
{
    let found = find_sites(alloc, program)?;
    let answer = matches_found(alloc, scoping, &found)?;
    Ok(answer)
}
