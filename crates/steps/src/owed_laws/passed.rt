// What holds behind an import and an export that become an export from the other module. Each law is a contract, so that the check proves it.
ghost use Rattle.std.specs.Prelude.{◌≡◌, ◌<◌, ℕ, List, true};
ghost use Rattle.js_syntax.specs.Class.{root};
ghost use Rattle.js_syntax.specs.Facts.{weight};
ghost use Rattle.js_syntax.specs.Node.{Note, Forest, total};
ghost use Rattle.js_meaning.specs.Kept.{Refined};
ghost use Rattle.js_meaning_near.specs.Near.{module_of};
ghost use Rattle.form_rules.specs.Form.{IsWellFormed};
ghost use Rattle.form_rules.specs.Rules.{is_exported, exported_among};
ghost use Rattle.json_shape.specs.Shape.{Fits};
ghost use Rattle.scope_rules.specs.Table.{Scoping};
ghost use Rattle.scope_laws.specs.Exact.{Among};
ghost use Rattle.scope_counts.specs.Counts.{Decl};
ghost use Rattle.scope_counts.specs.Losing.{referring, declaring};
ghost use Rattle.steps.specs.Allowed.Calls.{root_calls};
ghost use Rattle.steps.specs.Allowed.Changing.{may_change_somewhere};
ghost use Rattle.steps.specs.Allowed.Exposure.{evaluates_somewhere};
ghost use Rattle.steps.specs.Allowed.PassedExports.{AreFree, PassesIn, PassedExports};
ghost use Rattle.steps.specs.Fit.Sensible.{IsSensibleModule};
ghost use Rattle.steps.specs.Marked.Flags.{FlagsTell};
ghost use Rattle.steps.specs.Naming.Standing.{exported_declarations};
ghost use Rattle.steps.specs.Owed.Kept.{IsKept};

/// Law: where an import and an export of a core module become an export from the other module, the new module refines the old one.
pub fn passed_exports_keep_runs()
    ensures { (n m : Note) (names r s z : Forest) → PassesIn names r s z → AreFree (module_of n m s) names → IsSensibleModule (module_of n m r) → Refined (module_of n m r) (module_of n m z) }
{}

/// Law: the table of scopes before is exact for the program behind, with shorter lists.
pub fn passed_exports_keep_tables()
    ensures { (t u : Forest) → PassedExports t u → (table : Scoping) → IsKept table t → IsKept table u }
{}

/// Law: the program behind breaks no rule of form if the one before breaks none and fits the table of node types.
pub fn passed_exports_keep_form()
    ensures { (t u : Forest) → PassedExports t u → Fits root t → IsWellFormed t → IsWellFormed u }
{}

/// Law: its own list exports the same names.
pub fn passed_exports_keep_names()
    ensures { (names r s z : Forest) → PassesIn names r s z → (x : List ℕ) (p q : ℕ) → is_exported x (exported_among p r) ≡ is_exported x (exported_among q z) }
{}

/// Law: no reference and no declaration comes in, calls of `eval` are where they were, the flags of a table's scopes tell of the program behind
/// what they told of the one before, and the same is declared below exports.
pub fn passed_exports_bring_nothing()
    ensures referring { (t u : Forest) → PassedExports t u → (d : Decl) → Among d (referring u) → Among d (referring t) }
    ensures declared { (t u : Forest) → PassedExports t u → (d : Decl) → Among d (declaring u) → Among d (declaring t) }
    ensures evaluates { (t u : Forest) → PassedExports t u → evaluates_somewhere u ≡ evaluates_somewhere t }
    ensures flags { (table : Scoping) (t u : Forest) → PassedExports t u → FlagsTell table t → FlagsTell table u }
    ensures exported { (t u : Forest) → PassedExports t u → exported_declarations u ≡ exported_declarations t }
{}

/// Law: the program behind fits the table of node types if the one before does.
pub fn passed_exports_keep_fitting()
    ensures { (t u : Forest) → PassedExports t u → Fits root t → Fits root u }
{}

/// Law: it is lighter, and its own list has the same calls; and the edit is one of which it is told that something may change.
pub fn passed_exports_leave_less()
    ensures lighter { (t u : Forest) → PassedExports t u → total weight u < total weight t }
    ensures calls { (t u : Forest) → PassedExports t u → root_calls t ≡ root_calls u }
    ensures may_change { (t u : Forest) → PassedExports t u → may_change_somewhere t ≡ true }
{}
