// What a program exports while it is edited. The law is a contract, so that the check proves it.
ghost use Rattle.std.specs.Prelude.{◌≡◌};
ghost use Rattle.js_syntax.specs.Class.{root};
ghost use Rattle.js_syntax.specs.Node.{Forest};
ghost use Rattle.json_shape.specs.Shape.{Fits};
ghost use Rattle.scope_rules.specs.Site.{BindingSite};
ghost use Rattle.scope_laws.specs.Exact.{Among};
ghost use Rattle.steps.specs.Naming.Standing.{exported_declarations};
ghost use Rattle.steps.specs.Allowed.Edits.{TreeEdits};
ghost use Rattle.steps.specs.Marked.Exports.{WasExported};

/// Law: what edits leave of a program exports no declaration of its own scope but one that it exported, by its mark (16.2.3).
pub fn edits_bring_no_exports()
    ensures { (t u : Forest) → TreeEdits t u → Fits root t → (e : BindingSite) → Among e (exported_declarations u) → e.layer.scope ≡ 0 → WasExported t e }
{}
