// The bit of direct eval.
ghost use Rattle.std.specs.Prelude.{◌≡◌, ◌+◌, [], ◌∷◌};
ghost use Rattle.js_syntax.specs.Node.{Forest};
ghost use Rattle.scope_rules.specs.ScopeFlags as scope_flag;
ghost use Rattle.scope_rules.specs.Site.{sites_of, found_in};
ghost use Rattle.scope_rules.specs.Table.{scoping_of, symbols_declared};
ghost use Rattle.scope_rules.specs.Mark.{marked, first_marks};
ghost use Rattle.scope_table.specs.Refreshing.{refreshed};
ghost use Rattle.scope_edits.specs.Left.{without_the_call, table_before, scope_flags};

/// To refresh the bit in the table that is made of a program, from this program once it is marked, changes
/// nothing: the bit is where it was made to be.
pub fn a_new_table_stays_as_it_is()
    ensures { (t : Forest) → let f = found_in (sites_of t) in refreshed (marked (first_marks (symbols_declared f.bindings)) t) (scoping_of f) ≡ scoping_of f }
{}

/// Once the only direct call of `eval` leaves a function, the bit leaves the function's scope and the program's, and
/// all other bits stay.
pub fn the_bit_leaves_with_the_call()
    ensures before { scope_flags table_before ≡ (scope_flag.strict_mode + scope_flag.top + scope_flag.direct_eval) ∷ (scope_flag.strict_mode + scope_flag.function + scope_flag.direct_eval) ∷ (scope_flag.strict_mode + scope_flag.block) ∷ [] }
    ensures refreshed { scope_flags (refreshed without_the_call table_before) ≡ (scope_flag.strict_mode + scope_flag.top) ∷ (scope_flag.strict_mode + scope_flag.function) ∷ (scope_flag.strict_mode + scope_flag.block) ∷ [] }
{}
