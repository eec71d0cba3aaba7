// What holds behind two imports of one module that become one. Each law is a contract, so that the check proves it.
ghost use Rattle.std.specs.Prelude.{◌≡◌, ◌<◌, true};
ghost use Rattle.js_syntax.specs.Class.{root};
ghost use Rattle.js_syntax.specs.Facts.{weight};
ghost use Rattle.js_syntax.specs.Node.{Note, Forest, total};
ghost use Rattle.js_meaning.specs.Kept.{Refined};
ghost use Rattle.js_meaning_near.specs.Near.{module_of};
ghost use Rattle.form_rules.specs.Form.{IsWellFormed};
ghost use Rattle.json_shape.specs.Shape.{Fits};
ghost use Rattle.scope_rules.specs.Table.{Scoping};
ghost use Rattle.steps.specs.Allowed.Calls.{root_calls};
ghost use Rattle.steps.specs.Allowed.Changing.{may_change_somewhere};
ghost use Rattle.steps.specs.Allowed.MergedImports.{MergesIn, MergedImports};
ghost use Rattle.steps.specs.Fit.Sensible.{IsSensibleModule};
ghost use Rattle.steps.specs.Owed.Kept.{IsKept};

/// Law: where two imports of a core module become one, the new module refines the old one.
pub fn merged_imports_keep_runs()
    ensures { (n m : Note) (r s : Forest) → MergesIn r s → IsSensibleModule (module_of n m r) → Refined (module_of n m r) (module_of n m s) }
{}

/// Law: the table of scopes before is exact for the program behind, with the very lists.
pub fn merged_imports_keep_tables()
    ensures { (t u : Forest) → MergedImports t u → (table : Scoping) → IsKept table t → IsKept table u }
{}

/// Law: the program behind breaks no rule of form if the one before breaks none.
pub fn merged_imports_keep_form()
    ensures { (t u : Forest) → MergedImports t u → IsWellFormed t → IsWellFormed u }
{}

/// Law: it fits the table of node types if that one does.
pub fn merged_imports_keep_fitting()
    ensures { (t u : Forest) → MergedImports t u → Fits root t → Fits root u }
{}

/// Law: it is lighter, and its own list has the same calls; and the edit is one of which it is told that something may change.
pub fn merged_imports_leave_less()
    ensures lighter { (t u : Forest) → MergedImports t u → total weight u < total weight t }
    ensures calls { (t u : Forest) → MergedImports t u → root_calls t ≡ root_calls u }
    ensures may_change { (t u : Forest) → MergedImports t u → may_change_somewhere t ≡ true }
{}
