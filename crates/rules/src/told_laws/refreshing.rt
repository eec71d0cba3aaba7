// What the flags of a table tell only, once its bits of direct eval are read anew of an edited program. Each law is a contract, so that
// the check proves it.
ghost use Rattle.std.specs.Prelude.{ℕ, Bool};
ghost use Rattle.js_syntax.specs.Class.{root};
ghost use Rattle.js_syntax.specs.Node.{Forest};
ghost use Rattle.json_shape.specs.Shape.{Fits};
ghost use Rattle.scope_rules.specs.Site.{sites_of, found_in};
ghost use Rattle.scope_rules.specs.Table.{Scoping, scoping_of, symbols_declared};
ghost use Rattle.scope_rules.specs.Mark.{marked, first_marks};
ghost use Rattle.scope_table.specs.Editing.{pruned};
ghost use Rattle.scope_table.specs.Refreshing.{refreshed};
ghost use Rattle.steps.specs.Allowed.Edits.{TreeEdits};
ghost use Rattle.steps.specs.Marked.Flags.{FlagsTell};
ghost use Rattle.rules.specs.Told.Nesting.{ScopesNest};
ghost use Rattle.rules.specs.Told.Parts.{FlagsTellOnly, NamesToldOnly};

/// Law: whatever edits took out, once the bits are read anew of what they left the flags tell only what is so.
pub fn bits_that_are_read_anew_tell_only_what_is_so()
    ensures edits { (t u : Forest) → TreeEdits t u → Fits root t → (s : Scoping) → ScopesNest s t → FlagsTellOnly s t → FlagsTellOnly (refreshed u s) u }
    ensures names { (u : Forest) → Fits root u → (s : Scoping) → ScopesNest s u → NamesToldOnly s u → FlagsTellOnly (refreshed u s) u }
{}

/// Law: the scopes stand in one another as they did, and all else is told only where it is so, whatever the bits were read of.
pub fn bits_that_are_read_anew_keep_all_else()
    ensures nested { (s : Scoping) (t u : Forest) → ScopesNest s u → ScopesNest (refreshed t s) u }
    ensures names { (s : Scoping) (t u : Forest) → NamesToldOnly s u → NamesToldOnly (refreshed t s) u }
{}

/// Law: what the flags told of what edits left they tell still: the bits go where no call stands, and from nowhere else.
pub fn bits_that_are_read_anew_tell_as_much()
    ensures { (u : Forest) → Fits root u → (s : Scoping) → FlagsTell s u → FlagsTell (refreshed u s) u }
{}

/// Law: so it is of a program by its own table, whatever edits were made and which references were taken out of the lists.
pub fn new_tables_tell_only_what_is_so_at_the_end_of_a_walk()
    ensures { (t : Forest) → Fits root t → let f = found_in (sites_of t) in let now = marked (first_marks (symbols_declared f.bindings)) t in
        (u : Forest) → TreeEdits now u → (away : ℕ → Bool) → FlagsTellOnly (refreshed u (pruned away (scoping_of f))) u }
{}
