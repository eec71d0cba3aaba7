// What the flags of a table tell only, before its program is edited. Each law is a contract, so that the check proves it.
ghost use Rattle.std.specs.Prelude.{◌≡◌, ℕ, Bool};
ghost use Rattle.js_syntax.specs.Class.{root};
ghost use Rattle.js_syntax.specs.Node.{Forest};
ghost use Rattle.json_shape.specs.Shape.{Fits};
ghost use Rattle.scope_rules.specs.Site.{sites_of, found_in};
ghost use Rattle.scope_rules.specs.Table.{Scoping, scoping_of, symbols_declared};
ghost use Rattle.scope_rules.specs.Mark.{marked, first_marks};
ghost use Rattle.scope_table.specs.Reading.{scope_at};
ghost use Rattle.scope_table.specs.Editing.{pruned};
ghost use Rattle.rules.specs.Told.Parts.{FlagsTellOnly, NamesToldOnly};
ghost use Rattle.rules.specs.Told.Nesting.{ScopesNest};

/// Law: the flags of the table that is made of a program tell only what is so of the program once it is marked.
pub fn new_flags_tell_only_what_is_so()
    ensures { (t : Forest) → Fits root t → let f = found_in (sites_of t) in FlagsTellOnly (scoping_of f) (marked (first_marks (symbols_declared f.bindings)) t) }
{}

/// Law: its scopes stand in one another as the nodes do that make them.
pub fn new_scopes_nest()
    ensures { (t : Forest) → let f = found_in (sites_of t) in ScopesNest (scoping_of f) (marked (first_marks (symbols_declared f.bindings)) t) }
{}

/// Law: of the table nothing is asked but its scopes' flags, and their parents: another with the same ones tells only what is so where
/// the one does, and so does one whose lists are pruned.
pub fn flags_and_parents_alone_are_asked()
    ensures flags { (t : Forest) (s now : Scoping) → ((n : ℕ) → (scope_at now n).flags ≡ (scope_at s n).flags) → FlagsTellOnly s t → FlagsTellOnly now t }
    ensures names { (t : Forest) (s now : Scoping) → ((n : ℕ) → (scope_at now n).flags ≡ (scope_at s n).flags) → NamesToldOnly s t → NamesToldOnly now t }
    ensures parents { (t : Forest) (s now : Scoping) → ((n : ℕ) → (scope_at now n).parent ≡ (scope_at s n).parent) → ScopesNest s t → ScopesNest now t }
    ensures pruned { (t : Forest) (s : Scoping) (away : ℕ → Bool) → FlagsTellOnly s t → FlagsTellOnly (pruned away s) t }
    ensures pruned_names { (t : Forest) (s : Scoping) (away : ℕ → Bool) → NamesToldOnly s t → NamesToldOnly (pruned away s) t }
    ensures pruned_nest { (t : Forest) (s : Scoping) (away : ℕ → Bool) → ScopesNest s t → ScopesNest (pruned away s) t }
{}
