// What the flags of a table tell only, of a program that is edited while its table stays. Each law is a contract, so that the check
// proves it.
ghost use Rattle.std.specs.Prelude.{◌≡◌, false, Some};
ghost use Rattle.js_syntax.specs.Class.{root};
ghost use Rattle.js_syntax.specs.Node.{Forest, Tree};
ghost use Rattle.json_shape.specs.Shape.{Fits};
ghost use Rattle.scope_rules.specs.Table.{Scoping};
ghost use Rattle.scope_laws.specs.Place.{Around, plug};
ghost use Rattle.scope_laws.specs.Lists.{without};
ghost use Rattle.steps.specs.Allowed.Edits.{Leaves, TreeEdits};
ghost use Rattle.steps.specs.Allowed.Unreached.{is_behind_jump};
ghost use Rattle.steps.specs.Allowed.Untaken.{is_untaken};
ghost use Rattle.steps.specs.Allowed.IdleStatement.{does_nothing};
ghost use Rattle.min_context.specs.Edited.{evals};
ghost use Rattle.rules.specs.Told.Nesting.{ScopesNest};
ghost use Rattle.rules.specs.Told.Parts.{FlagsTellOnly, CallsToldOnly, NamesToldOnly};

/// Law: edits that leave each direct call of `eval` leave it so that the flags tell only what is so.
pub fn edits_without_calls_keep_what_flags_tell_only()
    ensures { (t u : Forest) → TreeEdits t u → Fits root t → evals u ≡ evals t → (s : Scoping) → FlagsTellOnly s t → FlagsTellOnly s u }
{}

/// Law: whatever leaves, which code isn't strict and which names are a script's own is told only where it is so.
pub fn edits_keep_which_names_are_told_only()
    ensures { (t u : Forest) → TreeEdits t u → Fits root t → (s : Scoping) → NamesToldOnly s t → NamesToldOnly s u }
{}

/// Law: what flags tell only has these two parts.
pub fn flags_tell_only_by_parts()
    ensures joined { (s : Scoping) (t : Forest) → CallsToldOnly s t → NamesToldOnly s t → FlagsTellOnly s t }
    ensures calls { (s : Scoping) (t : Forest) → FlagsTellOnly s t → CallsToldOnly s t }
    ensures names { (s : Scoping) (t : Forest) → FlagsTellOnly s t → NamesToldOnly s t }
{}

/// Law: edits leave scopes in one another as the nodes stand that make them.
pub fn edits_keep_how_scopes_nest()
    ensures { (t u : Forest) → TreeEdits t u → Fits root t → (s : Scoping) → ScopesNest s t → ScopesNest s u }
{}

/// Law: what leaves a list by an edit holds no direct call of `eval`, since its name would be exposed then, unless it stands behind a
/// jump or in a branch that isn't taken, or does nothing whatever it holds: so all stays as it is told.
pub fn what_leaves_a_list_leaves_calls()
    ensures calls { (a : Around) (x : Tree) → Leaves a x → is_behind_jump false a ≡ false → is_untaken false a ≡ false → does_nothing x.kind x.below ≡ false → Fits root (plug a (Some x)) → evals (without a) ≡ evals (plug a (Some x)) }
    ensures told { (a : Around) (x : Tree) → Leaves a x → is_behind_jump false a ≡ false → is_untaken false a ≡ false → does_nothing x.kind x.below ≡ false → Fits root (plug a (Some x)) → (s : Scoping) → FlagsTellOnly s (plug a (Some x)) → FlagsTellOnly s (without a) }
{}
