// References of a table, beside those that the rules make.
ghost use Rattle.std.specs.Prelude.{◌≡◌, ◌↔◌, ◌<◌, ℕ, length, option_map, IsTrue};
ghost use Rattle.scope_match.specs.Matches.{SameReference};

use crate::marks::{Marks, mark_at, mark_if_some};
use js_syntax::{ReferenceId, SymbolId};
use scope_table::Scoping;

fn number_of(symbol: Option<SymbolId>) -> Option<u32>
    ensures { result ≡ option_map (λ s. s.0) symbol }
{
    match symbol {
        Some(symbol) => Some(symbol.0),
        None => None,
    }
}

// Whether the table has the reference at its mark.
fn same_reference(scoping: &Scoping, table: &Scoping, marks: &Marks, number: u32) -> bool
    requires { number < length table.now.references }
    ensures { IsTrue result ↔ SameReference marks.now scoping.now table.now number }
{
    let mark = mark_at(marks.references(), number);
    if mark as usize >= scoping.references_len() {
        return false;
    }
    let given = scoping.get_reference(ReferenceId(mark));
    let wanted = table.get_reference(ReferenceId(number));
    let symbol = mark_if_some(marks.symbols(), number_of(wanted.symbol_id()));
    given.scope_id().0 == mark_at(marks.scopes(), wanted.scope_id().0)
        && number_of(given.symbol_id()) == symbol
        && given.flags() == wanted.flags()
}

/// Whether the table has each reference at its mark.
pub(crate) fn same_references(scoping: &Scoping, table: &Scoping, marks: &Marks) -> bool
    ensures { IsTrue result ↔ ((n : ℕ) → n < length table.now.references → SameReference marks.now scoping.now table.now n) }
{
    for i in 0..table.references_len() {
        if !same_reference(scoping, table, marks, i as u32) {
            return false;
        }
    }
    true
}
