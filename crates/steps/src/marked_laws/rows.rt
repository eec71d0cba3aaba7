// Small programs, by computing.
ghost use Rattle.std.specs.Prelude.{◌≡◌, ◌↔◌, List, [], ◌∷◌, Bool, true, false, nat_eq};
ghost use Rattle.js_syntax.specs.Node.{Forest};
ghost use Rattle.scope_rules.specs.Table.{Scoping};
ghost use Rattle.scope_rules.specs.Worked.{blocks, functions, classes, statements, calls_of_eval};
ghost use Rattle.scope_counts.specs.Scopes.{ExactButMarks, unmarked};
ghost use Rattle.scope_counts.specs.Tried.{with_marks};
ghost use Rattle.steps.specs.Marked.Flags.{FlagsTell};
ghost use Rattle.steps.specs.Marked.Samples.{table_of, counts_but_marks, reads_a, declares_a, do_flags_tell, new_flags_tell, two_functions, one_function, left_of_two, evaluating, empty_module};

/// The lists are what is counted before the only reference leaves, and behind that but for its mark; without the mark they are not.
pub fn a_mark_too_few_is_seen()
    ensures before { counts_but_marks (table_of reads_a) unmarked (with_marks reads_a) ≡ true }
    ensures marked { counts_but_marks (table_of reads_a) (nat_eq 0) declares_a ≡ true }
    ensures too_few { counts_but_marks (table_of reads_a) unmarked declares_a ≡ false }
    ensures unkept { ExactButMarks (table_of reads_a) unmarked declares_a → ⊥ }
{}

/// Whether flags tell of a tree is decided by computing.
pub fn flags_are_decided()
    ensures { (s : Scoping) (t : Forest) → FlagsTell s t ↔ (do_flags_tell s t ≡ true) }
{}

/// They tell of each worked program by its own table.
pub fn new_flags()
    ensures blocks { new_flags_tell blocks ≡ true ∷ true ∷ true ∷ [] }
    ensures functions { new_flags_tell functions ≡ true ∷ true ∷ true ∷ true ∷ true ∷ true ∷ [] }
    ensures classes { new_flags_tell classes ≡ true ∷ true ∷ [] }
    ensures statements { new_flags_tell statements ≡ true ∷ true ∷ true ∷ true ∷ true ∷ [] }
    ensures calls_of_eval { new_flags_tell calls_of_eval ≡ true ∷ true ∷ [] }
{}

/// Where a scope left they tell by the marks that the others had, and not by numbers in order; and not of another program.
pub fn flags_of_marks()
    ensures before { do_flags_tell (table_of two_functions) (with_marks two_functions) ≡ true }
    ensures left { do_flags_tell (table_of two_functions) left_of_two ≡ true }
    ensures in_order { do_flags_tell (table_of two_functions) (with_marks one_function) ≡ false }
    ensures evaluating { do_flags_tell (table_of evaluating) (with_marks evaluating) ≡ true }
    ensures silent { do_flags_tell (table_of empty_module) (with_marks evaluating) ≡ false }
{}
