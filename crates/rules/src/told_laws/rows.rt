// Small programs, by computing.
ghost use Rattle.std.specs.Prelude.{◌≡◌, true, false};
ghost use Rattle.js_syntax.specs.Class.{root};
ghost use Rattle.json_shape.specs.Shape.{Fits};
ghost use Rattle.scope_table.specs.Refreshing.{refreshed};
ghost use Rattle.steps.specs.Allowed.Edits.{Edit};
ghost use Rattle.steps.specs.Marked.Samples.{table_of};
ghost use Rattle.rules.specs.DeadCode.Samples.{do_flags_tell_only};
ghost use Rattle.rules.specs.Told.Parts.{FlagsTellOnly};
ghost use Rattle.rules.specs.Told.Samples.{asks_for_a_call, without_the_call, table_with_the_call, makes_a_function, makes_nothing, beside_a_call, table_inside_out, behind_a_statement, in_front};

/// Once the only direct call of `eval` leaves with the branch that isn't taken, the bit says too much, until it is read anew.
pub fn a_call_that_left_is_told_of()
    ensures edit { Edit asks_for_a_call without_the_call }
    ensures before { do_flags_tell_only table_with_the_call asks_for_a_call ≡ true }
    ensures left { do_flags_tell_only table_with_the_call without_the_call ≡ false }
    ensures unkept { FlagsTellOnly table_with_the_call without_the_call → ⊥ }
    ensures refreshed { do_flags_tell_only (refreshed without_the_call table_with_the_call) without_the_call ≡ true }
{}

/// So it is where a function that is never called leaves with the silent statement that makes it.
pub fn a_function_that_left_is_told_of()
    ensures edit { Edit makes_a_function makes_nothing }
    ensures before { do_flags_tell_only (table_of makes_a_function) makes_a_function ≡ true }
    ensures left { do_flags_tell_only (table_of makes_a_function) makes_nothing ≡ false }
    ensures refreshed { do_flags_tell_only (refreshed makes_nothing (table_of makes_a_function)) makes_nothing ≡ true }
{}

/// Where the scopes of a table don't stand in one another as the nodes do, the bit goes to a scope in which no call stands.
pub fn bits_go_where_parents_lead()
    ensures before { do_flags_tell_only table_inside_out beside_a_call ≡ true }
    ensures refreshed { do_flags_tell_only (refreshed beside_a_call table_inside_out) beside_a_call ≡ false }
    ensures by_its_own { do_flags_tell_only (refreshed beside_a_call (table_of beside_a_call)) beside_a_call ≡ true }
{}

/// Code may become strict where a tree doesn't fit the table of node types, and then the flags say too much as well.
pub fn a_directive_behind_a_statement_does_not_fit()
    ensures edit { Edit behind_a_statement in_front }
    ensures before { do_flags_tell_only (table_of behind_a_statement) behind_a_statement ≡ true }
    ensures left { do_flags_tell_only (table_of behind_a_statement) in_front ≡ false }
    ensures unfit { Fits root behind_a_statement → ⊥ }
{}
