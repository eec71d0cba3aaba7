// Symbols of a table, beside those that the rules make.
ghost use Rattle.std.specs.Prelude.{◌≡◌, ◌↔◌, ◌<◌, ℕ, length, IfOk, IsTrue};
ghost use Rattle.scope_match.specs.Matches.{mark_at, SameSymbol};
ghost use Rattle.scope_match.specs.Parts.{SameHead};

use crate::lists::{same_declarations, same_references};
use crate::marks::{Marks, mark_at};
use js_syntax::SymbolId;
use scope_table::Scoping;
use std::alloc::{AllocError, Global};

// All but its references.
fn same_head(
    scoping: &Scoping,
    given: SymbolId,
    table: &Scoping,
    wanted: SymbolId,
    scopes: &[u32],
) -> bool
    requires given { given.0 < length scoping.now.symbols }
    requires wanted { wanted.0 < length table.now.symbols }
    ensures { IsTrue result ↔ SameHead scopes.now scoping.now given.0 table.now wanted.0 }
{
    let scope = mark_at(scopes, table.symbol_scope_id(wanted).0);
    scoping.symbol_name(given) == table.symbol_name(wanted)
        && scoping.symbol_flags(given) == table.symbol_flags(wanted)
        && scoping.symbol_scope_id(given).0 == scope
        && scoping.symbol_has_no_side_effects(given) == table.symbol_has_no_side_effects(wanted)
        && same_declarations(
            scoping.symbol_redeclarations(given),
            table.symbol_redeclarations(wanted),
        )
}

// Whether the table has the symbol at its mark.
fn same_symbol(
    alloc: Global,
    scoping: &Scoping,
    table: &Scoping,
    marks: &Marks,
    number: u32,
) -> Result<bool, AllocError>
    requires { number < length table.now.symbols }
    ensures { IfOk result (λ b. IsTrue b ↔ SameSymbol marks.now scoping.now table.now number) }
{
    let wanted = SymbolId(number);
    let given = SymbolId(mark_at(marks.symbols(), number));
    if given.0 as usize >= scoping.symbols_len() {
        return Ok(false);
    }
    if !same_head(scoping, given, table, wanted, marks.scopes()) {
        return Ok(false);
    }
    let references = scoping.get_resolved_reference_ids(given);
    let wanted = table.get_resolved_reference_ids(wanted);
    let same = same_references(alloc, references, wanted, marks.references())?;
    Ok(same)
}

/// Whether the table has each symbol at its mark.
pub(crate) fn same_symbols(
    alloc: Global,
    scoping: &Scoping,
    table: &Scoping,
    marks: &Marks,
) -> Result<bool, AllocError>
    ensures { IfOk result (λ b. IsTrue b ↔ ((n : ℕ) → n < length table.now.symbols → SameSymbol marks.now scoping.now table.now n)) }
{
    for i in 0..table.symbols_len() {
        if !same_symbol(alloc, scoping, table, marks, i as u32)? {
            return Ok(false);
        }
    }
    Ok(true)
}
