//! Laws, each the contract of a function that does nothing.
ghost use Rattle.js_syntax.specs.Node.{Forest};
ghost use Rattle.scope_rules.specs.Site.{found_in, sites_of, bindings_among};
ghost use Rattle.scope_rules.specs.Table.{Scoping, scoping_of, symbols_declared};
ghost use Rattle.scope_rules.specs.Mark.{marked, first_marks};
ghost use Rattle.scope_laws.specs.Exact.{Exact};
ghost use Rattle.scope_match.specs.Matches.{Matches};
ghost use Rattle.scope_match.specs.Leftover.{LeavesNothing, one_left, no_program};

/// The table that is made of a tree matches the tree once it is marked.
pub fn tables_match()
    ensures { (t : Forest) → Matches (scoping_of (found_in (sites_of t))) (marked (first_marks (symbols_declared (found_in (sites_of t)).bindings)) t) }
{}

/// A table that matches a tree is exact for it, where symbols that no declaration is marked with list no
/// references.
pub fn matching_is_exact()
    ensures { (s : Scoping) (t : Forest) → Matches s t → LeavesNothing s (bindings_among (sites_of t)) → Exact s t }
{}

/// Where such a symbol lists a reference, a table may match and not be exact.
pub fn left_over_symbols_may_list()
    ensures matches { Matches one_left no_program }
    ensures not_exact { Exact one_left no_program → ⊥ }
{}
