// Why an import may become an export from its module, and which do. Each law is a contract, so that the check proves it.
ghost use Rattle.std.specs.Prelude.{◌≡◌, ◌≤◌, ◌+◌, ℕ, Bool, false, Some, None};
ghost use Rattle.js_syntax.specs.Facts.{weight};
ghost use Rattle.js_syntax.specs.Node.{Forest, Tree, node, forest_of, nothing, total};
ghost use Rattle.min_context.specs.Edited.{evals};
ghost use Rattle.min_context.specs.Place.{Place, place_at, goes_on};
ghost use Rattle.scope_counts.specs.Counts.{ids};
ghost use Rattle.scope_counts.specs.Edits.{Around, plug};
ghost use Rattle.scope_counts.specs.Scopes.{unmarked};
ghost use Rattle.steps.specs.Allowed.Edits.{TreeEdits};
ghost use Rattle.steps.specs.Allowed.PassedExports.{PassedExports};
ghost use Rattle.rules.specs.DeadCode.Rules.{Facts};
ghost use Rattle.rules.specs.DeadCode.Knows.{Knows};
ghost use Rattle.rules.specs.DeadCode.Quiet.{Exactly};
ghost use Rattle.rules.specs.Imports.Passed.{one_passes, all_passed, list_gone, pass_on};

/// Law: by what is known of a module its imports may become exports by the rule, one after the other.
pub fn imports_may_be_passed_on()
    ensures { (f : Facts) (marked : ℕ → Bool) (a : Around) (x y : Tree) (rest : Forest) → Knows f marked (plug a (node x.kind x.note x.below rest)) → pass_on f (place_at a (goes_on rest)) x ≡ Some y
        → TreeEdits (plug a (node x.kind x.note x.below rest)) (plug a (node y.kind y.note y.below rest)) }
{}

/// Law: the module is lighter then, the references that the exports listed leave and no others, and no call of `eval` does.
pub fn imports_that_are_passed_on_leave_less()
    ensures lighter { (f : Facts) (p : Place) (x y : Tree) → pass_on f p x ≡ Some y → total weight (forest_of y) + 1 ≤ total weight (forest_of x) }
    ensures references { (f : Facts) (p : Place) (x y : Tree) → pass_on f p x ≡ Some y → (i : ℕ) → ids i (forest_of x) ≡ ids i (forest_of y) + ids i (list_gone f x.below) }
    ensures calls { (f : Facts) (p : Place) (x y : Tree) → pass_on f p x ≡ Some y → evals (forest_of y) ≡ evals (forest_of x) }
    ensures gone { (f : Facts) (p : Place) (x y : Tree) → pass_on f p x ≡ Some y → evals (list_gone f x.below) ≡ 0 }
    ensures same { (f : Facts) (r : Forest) → one_passes f nothing r ≡ false → all_passed f nothing r ≡ r }
{}

/// Law: where no import of a program may become an export, none does, by whatever is known of it; and where none does, by what is known
/// exactly, none may.
pub fn imports_that_may_be_passed_on_are_found()
    ensures goes { (f : Facts) (t : Forest) → Knows f unmarked t → Exactly f t → ((a : Around) (x : Tree) (rest : Forest) → t ≡ plug a (node x.kind x.note x.below rest) → pass_on f (place_at a (goes_on rest)) x ≡ None) → (u : Forest) → PassedExports t u → ⊥ }
    ensures stays { (f : Facts) (marked : ℕ → Bool) (t : Forest) → Knows f marked t → ((u : Forest) → PassedExports t u → ⊥) → (a : Around) (x : Tree) (rest : Forest) → t ≡ plug a (node x.kind x.note x.below rest) → pass_on f (place_at a (goes_on rest)) x ≡ None }
{}
