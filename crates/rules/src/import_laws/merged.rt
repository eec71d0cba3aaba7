// Why imports of one module may come together, and which do. Each law is a contract, so that the check proves it.
ghost use Rattle.std.specs.Prelude.{◌≡◌, ◌≤◌, ◌+◌, ℕ, Bool, true, false, Some, None};
ghost use Rattle.js_syntax.specs.Facts.{weight};
ghost use Rattle.js_syntax.specs.Node.{Forest, Tree, node, forest_of, nothing, total};
ghost use Rattle.min_context.specs.Edited.{evals};
ghost use Rattle.min_context.specs.Place.{Place, place_at, goes_on};
ghost use Rattle.scope_counts.specs.Counts.{ids};
ghost use Rattle.scope_counts.specs.Edits.{Around, plug};
ghost use Rattle.scope_counts.specs.Scopes.{unmarked};
ghost use Rattle.steps.specs.Allowed.Edits.{TreeEdits};
ghost use Rattle.steps.specs.Allowed.MergedImports.{MergesIn, MergedImports};
ghost use Rattle.rules.specs.DeadCode.Rules.{Facts};
ghost use Rattle.rules.specs.DeadCode.Knows.{Knows};
ghost use Rattle.rules.specs.DeadCode.Quiet.{Exactly};
ghost use Rattle.rules.specs.Imports.Merged.{one_goes, together, come_together};

/// Law: by what is known of a module its imports may come together by the rule, one after the other.
pub fn imports_may_come_together()
    ensures { (f : Facts) (marked : ℕ → Bool) (a : Around) (x y : Tree) (rest : Forest) → Knows f marked (plug a (node x.kind x.note x.below rest)) → come_together f (place_at a (goes_on rest)) x ≡ Some y
        → TreeEdits (plug a (node x.kind x.note x.below rest)) (plug a (node y.kind y.note y.below rest)) }
{}

/// Law: the module is lighter then, and has the same references and direct calls of `eval`.
pub fn imports_that_come_together_leave_less()
    ensures lighter { (f : Facts) (p : Place) (x y : Tree) → come_together f p x ≡ Some y → total weight (forest_of y) + 1 ≤ total weight (forest_of x) }
    ensures references { (f : Facts) (p : Place) (x y : Tree) → come_together f p x ≡ Some y → (i : ℕ) → ids i (forest_of y) ≡ ids i (forest_of x) }
    ensures calls { (f : Facts) (p : Place) (x y : Tree) → come_together f p x ≡ Some y → evals (forest_of y) ≡ evals (forest_of x) }
{}

/// Law: of a list none goes exactly where none of its imports may go into another, and then the list stays as it is.
pub fn imports_of_a_list_that_may_come_together_are_found()
    ensures goes { (r : Forest) → one_goes nothing r ≡ false → (s : Forest) → MergesIn r s → ⊥ }
    ensures stays { (r : Forest) → ((s : Forest) → MergesIn r s → ⊥) → one_goes nothing r ≡ false }
    ensures same { (r : Forest) → one_goes nothing r ≡ false → together nothing r ≡ r }
{}

/// Law: where no two imports of a program may become one, none goes, by whatever is known of it; and where none goes, by what is known
/// exactly, no two may.
pub fn imports_that_may_come_together_are_found()
    ensures goes { (f : Facts) (t : Forest) → Knows f unmarked t → Exactly f t → ((a : Around) (x : Tree) (rest : Forest) → t ≡ plug a (node x.kind x.note x.below rest) → come_together f (place_at a (goes_on rest)) x ≡ None) → (u : Forest) → MergedImports t u → ⊥ }
    ensures stays { (f : Facts) (marked : ℕ → Bool) (t : Forest) → Knows f marked t → ((u : Forest) → MergedImports t u → ⊥) → (a : Around) (x : Tree) (rest : Forest) → t ≡ plug a (node x.kind x.note x.below rest) → come_together f (place_at a (goes_on rest)) x ≡ None }
{}
