// Which exports stay behind edits. Each law is a contract, so that the check proves it.
ghost use Rattle.std.specs.Prelude.{◌≡◌, ◌↔◌, ℕ, List, Bool, true, Some};
ghost use Rattle.js_syntax.specs.Class.{root};
ghost use Rattle.js_syntax.specs.Node.{Forest};
ghost use Rattle.js_effects.specs.Silence.{is_marked};
ghost use Rattle.json_shape.specs.Shape.{Fits};
ghost use Rattle.steps.specs.Allowed.Edits.{TreeEdits};
ghost use Rattle.rules.specs.DeadCode.Quiet.{IsExported};

/// Law: a symbol of which a program exports a declaration of its own scope, what edits leave of the program exports too (16.2.3).
pub fn edits_lose_no_exports()
    ensures { (t u : Forest) → TreeEdits t u → Fits root t → (symbol : ℕ) → IsExported t symbol → IsExported u symbol }
{}

/// Law: so a list of symbols that are all exported before edits is one behind them.
pub fn edits_keep_exported()
    ensures { (t u : Forest) → TreeEdits t u → Fits root t → (exported : List Bool) → ((symbol : ℕ) → is_marked exported (Some symbol) ≡ true → IsExported t symbol)
        → ((symbol : ℕ) → is_marked exported (Some symbol) ≡ true → IsExported u symbol) }
{}

/// Law: what edits leave of a program exports the symbols that the program exported, and no others.
pub fn edits_export_the_same()
    ensures { (t u : Forest) → TreeEdits t u → Fits root t → (symbol : ℕ) → IsExported t symbol ↔ IsExported u symbol }
{}
