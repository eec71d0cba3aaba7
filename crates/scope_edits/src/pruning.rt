// References that leave the lists of symbols.
ghost use Rattle.std.specs.Prelude.{◌≡◌, ℕ, Bool, List};
ghost use Rattle.js_syntax.specs.Node.{Forest};
ghost use Rattle.scope_rules.specs.Table.{Scoping};
ghost use Rattle.symbol_sets.specs.Numbers.{has};
ghost use Rattle.scope_table.specs.Editing.{pruned};
ghost use Rattle.scope_counts.specs.Losing.{Prunes};
ghost use Rattle.scope_counts.specs.Scopes.{ExactButMarks, unmarked};

/// To take references out of all lists leaves the references, the names, and in each list how often each
/// other reference stands there.
pub fn lists_lose_what_is_taken_out()
    ensures { (away : ℕ → Bool) (s : Scoping) → Prunes away s (pruned away s) }
{}

/// A table whose lists were exact but for some marked references is exact once a set that has these alone is
/// taken out of its lists.
pub fn lists_are_exact_again()
    ensures { (set : List Bool) (marked : ℕ → Bool) (s : Scoping) (t : Forest) → ((r : ℕ) → has set r ≡ marked r) → ExactButMarks s marked t → ExactButMarks (pruned (has set) s) unmarked t }
{}
