// Why unused names of imports may go, and what a program has no more of which none goes. Each law is a contract, so that the check
// proves it.
ghost use Rattle.std.specs.Prelude.{◌≡◌, ◌≤◌, ◌+◌, ℕ, List, Bool, true, false, Some, None};
ghost use Rattle.js_syntax.specs.declared.node_kind.NodeKind.{NodeKind as Kind};
ghost use Rattle.js_syntax.specs.Facts.{weight};
ghost use Rattle.js_syntax.specs.Node.{Forest, Tree, Note, node, forest_of, total};
ghost use Rattle.min_context.specs.Edited.{evals};
ghost use Rattle.min_context.specs.Place.{place_at, goes_on, top};
ghost use Rattle.scope_laws.specs.Place as places;
ghost use Rattle.scope_counts.specs.Counts.{ids};
ghost use Rattle.scope_counts.specs.Edits.{Around, plug};
ghost use Rattle.scope_counts.specs.Scopes.{unmarked};
ghost use Rattle.steps.specs.Steps.{binds_import};
ghost use Rattle.steps.specs.Allowed.Edits.{TreeEdits};
ghost use Rattle.steps.specs.Allowed.Exposure.{IsOwnDeclarator};
ghost use Rattle.steps.specs.Allowed.Free.{FreeDeclarator};
ghost use Rattle.steps.specs.Allowed.Imports.{IsImported};
ghost use Rattle.steps.specs.Allowed.Places.{At};
ghost use Rattle.steps.specs.Allowed.RepeatedImport.{RepeatedImport};
ghost use Rattle.steps.specs.Allowed.UnusedImport.{an_imported};
ghost use Rattle.rules.specs.DeadCode.Rules.{Facts, Where, where_of};
ghost use Rattle.rules.specs.DeadCode.Knows.{Knows};
ghost use Rattle.rules.specs.DeadCode.Quiet.{Exactly, EachNode};
ghost use Rattle.rules.specs.Imports.Repeated.{asked_once};
ghost use Rattle.rules.specs.Imports.Rules.{pruned};
ghost use Rattle.rules.specs.Imports.Quiet.{ImportsUsed, IsUsedAt};

/// Law: by what is known the names that go of an import may go, one after the other, and the import stays.
pub fn unused_names_may_go()
    ensures { (f : Facts) (marked : ℕ → Bool) (a : Around) (x y : Tree) (rest : Forest) → Knows f marked (plug a (node x.kind x.note x.below rest)) → pruned f (where_of (place_at a (goes_on rest))) x ≡ Some y
        → TreeEdits (plug a (node x.kind x.note x.below rest)) (plug a (node y.kind y.note y.below rest)) }
{}

/// Law: the import is lighter then.
pub fn pruned_is_lighter()
    ensures { (f : Facts) (w : Where) (x y : Tree) → pruned f w x ≡ Some y → total weight (forest_of y) + 1 ≤ total weight (forest_of x) }
{}

/// Law: names bind, and refer to nothing, so that no reference and no direct call of `eval` leaves with them (ECMA-262 19.2.1.1).
pub fn pruned_keeps_references()
    ensures references { (f : Facts) (w : Where) (x y : Tree) → pruned f w x ≡ Some y → (r : ℕ) → ids r (forest_of y) ≡ ids r (forest_of x) }
    ensures calls { (f : Facts) (w : Where) (x y : Tree) → pruned f w x ≡ Some y → evals (forest_of y) ≡ evals (forest_of x) }
{}

/// Law: a walk sees that none goes, node by node.
pub fn walks_see_that_imports_are_used()
    ensures { (f : Facts) (t : Forest) → EachNode (IsUsedAt f) top t → ImportsUsed f t }
{}

/// Law: a program of which none goes, by what is known exactly, has no name of an import that nothing refers to, no export is of and no
/// other code may use, unless such names are kept.
pub fn no_name_is_left_unused()
    ensures { (f : Facts) (t : Forest) → Knows f unmarked t → Exactly f t → ImportsUsed f t → (a : places.Around) (k : Kind) (n m : Note) (x : List ℕ) → t ≡ places.plug a (an_imported k n m x) → f.keeps_unused ≡ false → f.keeps_imports ≡ false → binds_import k ≡ true → IsImported a
        → IsOwnDeclarator a (an_imported k n m x) → At a (an_imported k n m x) (FreeDeclarator t x) → ⊥ }
{}

/// Law: an import without names whose module is asked for before in its list may leave it, one after the other.
pub fn repeated_imports_may_go()
    ensures { (a : Around) (x y : Tree) (rest : Forest) → asked_once x ≡ Some y → TreeEdits (plug a (node x.kind x.note x.below rest)) (plug a (node y.kind y.note y.below rest)) }
{}

/// Law: the list is lighter then, and has the same references and direct calls of `eval`.
pub fn repeated_imports_hold_nothing()
    ensures lighter { (x y : Tree) → asked_once x ≡ Some y → total weight (forest_of y) + 1 ≤ total weight (forest_of x) }
    ensures references { (x y : Tree) → asked_once x ≡ Some y → (r : ℕ) → ids r (forest_of y) ≡ ids r (forest_of x) }
    ensures calls { (x y : Tree) → asked_once x ≡ Some y → evals (forest_of y) ≡ evals (forest_of x) }
{}

/// Law: none goes from any list of a program exactly where none stands in the program that may.
pub fn repeated_imports_are_found()
    ensures goes { (t : Forest) → ((a : Around) (x : Tree) (rest : Forest) → t ≡ plug a (node x.kind x.note x.below rest) → asked_once x ≡ None) → (b : places.Around) (x : Tree) → t ≡ places.plug b (Some x) → RepeatedImport b x → ⊥ }
    ensures stays { (t : Forest) → ((b : places.Around) (x : Tree) → t ≡ places.plug b (Some x) → RepeatedImport b x → ⊥) → (a : Around) (x : Tree) (rest : Forest) → t ≡ plug a (node x.kind x.note x.below rest) → asked_once x ≡ None }
{}
