// What holds behind edits, of every case. Each law is a contract, so that the check proves it.
ghost use Rattle.std.specs.Prelude.{◌≡◌, ◌⊎◌, ◌≤◌, ◌<◌, true, false};
ghost use Rattle.js_syntax.specs.Class.{root};
ghost use Rattle.js_syntax.specs.Facts.{weight};
ghost use Rattle.js_syntax.specs.Node.{Forest, bare, total};
ghost use Rattle.json_shape.specs.Shape.{Fits};
ghost use Rattle.scope_rules.specs.Table.{Scoping};
ghost use Rattle.steps.specs.KeepForm.Sheds.{Sheds, outermost};
ghost use Rattle.steps.specs.Allowed.Calls.{root_calls};
ghost use Rattle.steps.specs.Allowed.Changing.{may_change_somewhere};
ghost use Rattle.steps.specs.Allowed.MergedImports.{MergedImports};
ghost use Rattle.steps.specs.Allowed.PassedExports.{PassedExports};
ghost use Rattle.steps.specs.Allowed.Edits.{Edit, TreeEdits, Edits};
ghost use Rattle.steps.specs.Fit.Sensible.{IsSensible};
ghost use Rattle.steps.specs.Owed.Kept.{IsKept};

/// Law: from a program of the table of node types that breaks no rule of form, edits lead to no other.
pub fn edits_lead_from_sensible_programs_to_sensible_ones()
    ensures one { (t u : Forest) → Edit t u → IsSensible t → IsSensible u }
    ensures many { (t u : Forest) → Edits t u → IsSensible t → IsSensible u }
{}

/// Law: by an edit a tree of the table sheds what it may shed, or two of its imports become one, or an import and an export do.
pub fn an_edit_sheds()
    ensures { (t u : Forest) → Edit t u → Fits root t → Sheds outermost t u ⊎ (MergedImports t u ⊎ PassedExports t u) }
{}

/// Law: after edits of a tree the table of its scopes, symbols and references, with shorter lists, tells of what is left.
pub fn edits_keep_the_table_of_scopes()
    ensures { (t u : Forest) → TreeEdits t u → Fits root t → (s : Scoping) → IsKept s t → IsKept s u }
{}

/// Law: each edit makes the tree lighter.
pub fn an_edit_leaves_less()
    ensures { (t u : Forest) → Edit t u → total weight u < total weight t }
{}

/// Law: edits take no call out of a program's own list, up to the first statement that may end it: behind that a jump may stand.
pub fn calls_of_a_program_stay()
    ensures { (t u : Forest) → Edits t u → root_calls t ≤ root_calls u }
{}

/// Law: where no edit may be allowed, none is made: what is left is the program.
pub fn where_nothing_may_change_nothing_does()
    ensures edit { (t u : Forest) → Edit t u → may_change_somewhere t ≡ true }
    ensures edits { (t u : Forest) → may_change_somewhere t ≡ false → Edits t u → bare t ≡ bare u }
{}
