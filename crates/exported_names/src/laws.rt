// Why what is answered by a new table is so. Each law is a contract, so that the check proves it.
ghost use Rattle.std.specs.Prelude.{◌≡◌, ℕ, Bool, true, Some};
ghost use Rattle.js_syntax.specs.Class.{root};
ghost use Rattle.js_syntax.specs.Node.{Forest};
ghost use Rattle.js_effects.specs.Silence.{is_marked};
ghost use Rattle.json_shape.specs.Shape.{Fits};
ghost use Rattle.scope_rules.specs.Mark.{marked, first_marks};
ghost use Rattle.scope_rules.specs.Site.{sites_of, found_in};
ghost use Rattle.scope_rules.specs.Table.{scoping_of, symbols_declared};
ghost use Rattle.scope_counts.specs.Scopes.{unmarked};
ghost use Rattle.steps.specs.Allowed.Exposure.{is_script};
ghost use Rattle.rules.specs.DeadCode.Rules.{Facts};
ghost use Rattle.rules.specs.DeadCode.Knows.{Knows};
ghost use Rattle.rules.specs.DeadCode.Quiet.{IsExported};
ghost use Rattle.exported_names.specs.Answers.{bound_of};
ghost use Rattle.exported_names.specs.Exported.{exported_of};
ghost use Rattle.exported_names.specs.Placed.{ArePlaced};

/// Law: the table that is made of a program has the scopes of its declarations, once the program is marked.
pub fn new_tables_have_the_scopes_of_declarations()
    ensures { (t : Forest) → let f = found_in (sites_of t) in ArePlaced (scoping_of f) (marked (first_marks (symbols_declared f.bindings)) t) }
{}

/// Law: so what is answered by it is what the pass over dead code is to know, whatever is kept, and no symbol is told to be exported that
/// isn't.
pub fn new_programs_are_known_by_what_is_answered()
    ensures known { (t : Forest) → Fits root t → (keeps_unused keeps_imports : Bool) → let f = found_in (sites_of t) in let u = marked (first_marks (symbols_declared f.bindings)) t in
        let facts : Facts = record { scoping = scoping_of f; bound = bound_of (scoping_of f); exported = exported_of (scoping_of f) u; is_script = is_script u; keeps_unused = keeps_unused; keeps_imports = keeps_imports } in
        Knows facts unmarked u }
    ensures only { (t : Forest) → let f = found_in (sites_of t) in let u = marked (first_marks (symbols_declared f.bindings)) t in
        (symbol : ℕ) → is_marked (exported_of (scoping_of f) u) (Some symbol) ≡ true → IsExported u symbol }
{}
